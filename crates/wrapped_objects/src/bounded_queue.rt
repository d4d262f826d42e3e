ghost use Rattle.std.specs.Prelude.{◌<◌};

use book_base::{BAD, NoMemory, OpWord};
use crossbeam_queue::ArrayQueue;
use drv_wrapper::{Announced, BlackBox};
use hunts::CountingPass;
use seq_objects::{DONE, NONE, QueueOperation, wrapping_value_reply};
use std::alloc::Global;
use std::sync::Wait;

/// A queue over crossbeam's `ArrayQueue`, whose calls may wait for one another.
#[derive(Drop)]
pub(crate) struct BoundedQueue<R> {
    rt: R,
    items: ArrayQueue<u32>,
}

// The reply word of a bounded queue to an operation word. A put that finds the queue full gets
// `BAD`, which a sequential queue gives to no put.
pub(crate) fn reply_of<R: Wait>(rt: &R, items: &ArrayQueue<u32>, op: OpWord) -> u64 {
    match QueueOperation::from_word(op) {
        Some(QueueOperation::Enqueue(value)) => match items.push(rt, value) {
            Ok(()) => DONE,
            Err(_) => BAD,
        },
        Some(QueueOperation::Dequeue) => match items.pop(rt) {
            Some(value) => wrapping_value_reply(u64::from(value)),
            None => NONE,
        },
        None => BAD,
    }
}

impl<R: Wait + Copy> BoundedQueue<R> {
    /// A queue with capacity for this many values.
    pub(crate) fn new(rt: R, alloc: Global, room: usize) -> Result<BoundedQueue<R>, NoMemory>
        requires { 0 < room }
    {
        let items = ArrayQueue::new(alloc, room)?;
        Ok(BoundedQueue { rt, items })
    }
}

impl<R: Wait> BlackBox for BoundedQueue<R> {
    ghost use Rattle.hunts.specs.Silence.{tells_none};

    type Pass = CountingPass;

    ghost tells_each = { tells_none };

    fn call(&self, pass: &mut CountingPass, announced: &Announced) -> u64 {
        pass.count();
        reply_of(&self.rt, &self.items, announced.op())
    }
}
