ghost use Rattle.std.specs.Prelude.{◌<◌};

use crate::bounded_queue::reply_of;
use book_base::NoMemory;
use crossbeam_queue::ArrayQueue;
use drv_wrapper::{Announced, BlackBox};
use hunts::CountingPass;
use std::alloc::Global;
use std::sync::Wait;

/// Two bounded queues instead of one: callers of even numbers use one, and callers of odd numbers
/// the other. So what a caller enqueues is never found by the callers that use the other queue.
#[derive(Drop)]
pub(crate) struct TwinQueues<R> {
    rt: R,
    even: ArrayQueue<u32>,
    odd: ArrayQueue<u32>,
}

impl<R: Wait + Copy> TwinQueues<R> {
    /// Two queues with capacity for this many values each.
    pub(crate) fn new(rt: R, alloc: Global, room: usize) -> Result<TwinQueues<R>, NoMemory>
        requires { 0 < room }
    {
        let even = ArrayQueue::new(alloc, room)?;
        let odd = ArrayQueue::new(alloc, room)?;
        Ok(TwinQueues { rt, even, odd })
    }
}

impl<R: Wait> BlackBox for TwinQueues<R> {
    ghost use Rattle.hunts.specs.Silence.{tells_none};

    type Pass = CountingPass;

    ghost tells_each = { tells_none };

    fn call(&self, pass: &mut CountingPass, announced: &Announced) -> u64 {
        pass.count();
        let items = if announced.caller() % 2 == 0 {
            &self.even
        } else {
            &self.odd
        };
        reply_of(&self.rt, items, announced.op())
    }
}
