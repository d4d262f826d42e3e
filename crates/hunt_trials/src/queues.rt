//! A queue behind a lock, or two of them instead of one.

use book_base::{BAD, NoMemory, OpWord};
use client_scripts::Script;
use drv_wrapper::{Announced, BlackBox};
use hunts::{CountingPass, Maker, Noise, NoisyLock};
use seq_objects::{DONE, NONE, QueueOperation, wrapping_value_reply};
use std::alloc::Global;
use std::collections::VecDeque;

/// Two queues behind locks. Where they are twins, each caller uses one of them alone, so what a
/// caller enqueues is never found by the callers that use the other; where they aren't, all callers
/// use the first.
#[derive(Drop)]
pub(crate) struct TwoQueues {
    twins: bool,
    even: NoisyLock<VecDeque<u32>>,
    odd: NoisyLock<VecDeque<u32>>,
}

impl TwoQueues {
    // The reply of the queue that this caller uses, or none where its lock can't be had or memory
    // is wanted.
    fn answer(&self, caller: u32, op: OpWord) -> Option<u64> {
        let items = if self.twins && caller % 2 == 1 {
            &self.odd
        } else {
            &self.even
        };
        let mut items = items.lock()?;
        match QueueOperation::from_word(op)? {
            QueueOperation::Enqueue(value) => match items.push_back(value) {
                Ok(()) => Some(DONE),
                Err(_) => None,
            },
            QueueOperation::Dequeue => match items.pop_front() {
                Some(value) => Some(wrapping_value_reply(u64::from(value))),
                None => Some(NONE),
            },
        }
    }
}

impl BlackBox for TwoQueues {
    ghost use Rattle.hunts.specs.Silence.{tells_none};

    type Pass = CountingPass;

    ghost tells_each = { tells_none };

    fn call(&self, pass: &mut CountingPass, announced: &Announced) -> u64 {
        pass.count();
        self.answer(announced.caller(), announced.op())
            .unwrap_or(BAD)
    }
}

/// Makes one queue, or twins.
#[derive(Clone, Copy)]
pub(crate) struct Queues {
    pub(crate) twins: bool,
}

impl Maker<TwoQueues> for Queues {
    fn open(
        &self,
        alloc: Global,
        script: &Script,
        noise: Noise,
    ) -> Result<(TwoQueues, Vec<CountingPass>), NoMemory> {
        let queues = TwoQueues {
            twins: self.twins,
            even: NoisyLock::new(&noise, VecDeque::new(alloc))?,
            odd: NoisyLock::new(&noise, VecDeque::new(alloc))?,
        };
        Ok((queues, CountingPass::for_script(alloc, script)?))
    }
}
