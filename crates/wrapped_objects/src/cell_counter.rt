ghost use Rattle.seq_objects.specs.declared.kind.Kind.TheVariants.{Counter};
ghost use Rattle.wrapped_objects.specs.Replies.{IsPossible};

use book_base::{BAD, OpWord};
use crossbeam_utils::atomic::AtomicCell;
use drv_wrapper::{Announced, BlackBox};
use hunts::CountingPass;
use seq_objects::{CounterOperation, wrapping_value_reply};

/// A counter over crossbeam's `AtomicCell`, with the count 0 at first: an increment is one
/// addition.
#[derive(Default, Drop)]
pub struct CellCounter {
    count: AtomicCell<u32>,
}

impl CellCounter {
    /// Makes the call with the operation word `op`, and answers the reply word. A word that no
    /// counter knows changes nothing, and its reply is `bad`.
    pub fn answer(&self, op: OpWord) -> u64
        // The reply is one that a counter gives to the operation in some state.
        ensures { IsPossible Counter op result }
    {
        match CounterOperation::from_word(op) {
            Some(CounterOperation::Increment) => {
                wrapping_value_reply(u64::from(self.count.fetch_add(1)))
            }
            None => BAD,
        }
    }
}

impl BlackBox for CellCounter {
    ghost use Rattle.hunts.specs.Silence.{tells_none};

    type Pass = CountingPass;

    ghost tells_each = { tells_none };

    fn call(&self, pass: &mut CountingPass, announced: &Announced) -> u64 {
        pass.count();
        self.answer(announced.op())
    }
}
