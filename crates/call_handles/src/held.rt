ghost use Rattle.std.specs.Prelude.{◌≡◌, Option, Some, None, IsSome};
ghost use Rattle.call_handles.specs.declared.handle.Handle.{Handle};
ghost use Rattle.call_handles.specs.Handles.{IsSound};
ghost use Rattle.call_handles.specs.Ownership.{coded_handle, held_at};

use crate::Handle;
use crate::loose::Loose;
use std::alloc::Global;
use std::marker::Model;

/// The pointer by which a program in another language holds a handle: it points to a box, or to
/// nothing.
#[repr(C)]
#[derive(Drop)]
pub struct Held {
    at: *mut u8,
    pub ghost value: { Option Handle } by { coded_handle },
}

impl Model for Held {
    ghost also_owns = { λ h. held_at h.at h.value };
}

impl Held {
    /// The pointer to the handle of a box that was taken apart.
    pub(crate) fn of(loose: Loose<Handle, Global>) -> Held
        requires sound { IsSound loose.value }
        ensures { result.value ≡ Some loose.value }
    {
        let Loose { at, alloc: _ } = loose;
        Held { at: at as *mut u8 }
    }

    /// The box that the pointer points to, and a pointer to nothing.
    pub(crate) fn take(self, alloc: Global) -> (Loose<Handle, Global>, Held)
        requires some { IsSome self.value }
        ensures { (self.value ≡ Some result.0.value) × IsSound result.0.value
            × (result.1.value ≡ None) }
    {
        let Held { at } = self;
        let loose = Loose {
            at: at as *mut Handle,
            alloc,
        };
        (loose, Held { at })
    }
}
