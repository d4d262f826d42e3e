ghost use Rattle.seq_objects.specs.declared.kind.Kind.TheVariants.{Counter};
ghost use Rattle.wrapped_objects.specs.Replies.{IsPossible};

use book_base::{BAD, OpWord};
use crossbeam_utils::atomic::AtomicCell;
use drv_wrapper::{Announced, BlackBox};
use hunts::CountingPass;
use seq_objects::{CounterOperation, wrapping_value_reply};

/// A counter that uses an atomic cell wrongly, with the count 0 at first: an increment is a load,
/// and then a store of one more. So some of several increments that overlap may be lost.
#[derive(Default, Drop)]
pub struct TornCounter {
    count: AtomicCell<u32>,
}

impl TornCounter {
    /// Makes the call with the operation word `op`, and answers the reply word. A word that no
    /// counter knows changes nothing, and its reply is `bad`.
    pub fn answer(&self, op: OpWord) -> u64
        // The reply is one that a counter gives to the operation in some state.
        ensures { IsPossible Counter op result }
    {
        match CounterOperation::from_word(op) {
            Some(CounterOperation::Increment) => {
                let found = self.count.load();
                self.count.store(found.wrapping_add(1));
                wrapping_value_reply(u64::from(found))
            }
            None => BAD,
        }
    }
}

impl BlackBox for TornCounter {
    ghost use Rattle.hunts.specs.Silence.{tells_none};

    type Pass = CountingPass;

    ghost tells_each = { tells_none };

    fn call(&self, pass: &mut CountingPass, announced: &Announced) -> u64 {
        pass.count();
        self.answer(announced.op())
    }
}
