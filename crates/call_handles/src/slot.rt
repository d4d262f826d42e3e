ghost use Rattle.std.specs.Prelude.{◌≡◌, IsTrue, Some, None, nat_eq, is_some};

use crate::Handle;
use crate::held::Held;
use crate::loose::Loose;
use std::alloc::Global;

/// A place for one handle in a program in another language. It has a handle where `in_use` is 1;
/// where all of it is zero, it has none.
#[repr(C)]
#[derive(Drop)]
pub struct Slot {
    pub in_use: u32,
    pub held: Held,
    ghost tied: { is_some held.value ≡ nat_eq in_use 1 },
}

impl Slot {
    ghost use Rattle.call_handles.specs.Handles.{IsSound};
    ghost use Rattle.call_handles.specs.Slots.{handle_in};

    /// A slot with the handle that is in a box.
    pub(crate) fn of(handle: Box<Handle>) -> Slot
        requires sound { IsSound handle.value }
        ensures { handle_in result ≡ Some handle.value }
    {
        Slot {
            in_use: 1,
            held: Held::of(Loose::of(handle)),
        }
    }

    /// Whether the slot has a handle.
    pub(crate) fn is_taken(&self) -> bool
        ensures { result ≡ is_some (handle_in self.now) }
    {
        self.in_use == 1
    }

    /// The box with the slot's handle, and the slot without it.
    pub(crate) fn take(self, alloc: Global) -> (Box<Handle>, Slot)
        requires { IsTrue (is_some (handle_in self)) }
        ensures value { handle_in self ≡ Some result.0.value }
        ensures sound { IsSound result.0.value }
        ensures none { handle_in result.1 ≡ None }
    {
        let Slot { in_use: _, held } = self;
        let (loose, held) = held.take(alloc);
        (loose.into_box(), Slot { in_use: 0, held })
    }
}
