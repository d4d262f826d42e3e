ghost use Rattle.seq_objects.specs.declared.kind.Kind.TheVariants.{Register};
ghost use Rattle.wrapped_objects.specs.Replies.{IsPossible};

use book_base::{BAD, OpWord};
use crossbeam_utils::atomic::AtomicCell;
use drv_wrapper::{Announced, BlackBox};
use hunts::CountingPass;
use seq_objects::{DONE, RegisterOperation, wrapping_value_reply};

/// A register over crossbeam's `AtomicCell`, which holds 0 at first: a write is one store, and a
/// read one load.
#[derive(Default, Drop)]
pub struct CellRegister {
    value: AtomicCell<u32>,
}

impl CellRegister {
    /// Makes the call with the operation word `op`, and answers the reply word. A word that no
    /// register knows changes nothing, and its reply is `bad`.
    pub fn answer(&self, op: OpWord) -> u64
        // The reply is one that a register gives to the operation in some state.
        ensures { IsPossible Register op result }
    {
        match RegisterOperation::from_word(op) {
            Some(RegisterOperation::Write(value)) => {
                self.value.store(value);
                DONE
            }
            Some(RegisterOperation::Read) => wrapping_value_reply(u64::from(self.value.load())),
            None => BAD,
        }
    }
}

impl BlackBox for CellRegister {
    ghost use Rattle.hunts.specs.Silence.{tells_none};

    type Pass = CountingPass;

    ghost tells_each = { tells_none };

    fn call(&self, pass: &mut CountingPass, announced: &Announced) -> u64 {
        pass.count();
        self.answer(announced.op())
    }
}
