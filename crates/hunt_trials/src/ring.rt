//! The ring buffer of a queue, behind a lock or torn.

use crate::trial::calls_of_script;
use book_base::{BAD, NoMemory, OpWord};
use client_scripts::Script;
use drv_wrapper::{Announced, BlackBox};
use hunts::{CountingPass, Maker, Noise, NoisyCell, NoisyLock};
use seq_objects::{DONE, NONE, QueueOperation, wrapping_value_reply};
use std::alloc::Global;

/// A queue over places: an enqueue fills the place at the tail and moves the tail forward, a
/// dequeue takes from the place at the head and moves the head forward. Each does both under a
/// lock, or, where the ring is torn, without one. There are as many places as calls, so an enqueue
/// always has a place to fill.
#[derive(Drop)]
pub(crate) struct Ring {
    torn: bool,
    places: Vec<NoisyCell<u32>>,
    head: NoisyCell<u32>,
    tail: NoisyCell<u32>,
    lock: NoisyLock<()>,
}

impl Ring {
    // The cell of a place.
    fn place(&self, number: u32) -> Option<&NoisyCell<u32>> {
        self.places.get(number as usize)
    }

    fn enqueue(&self, value: u32) -> Option<u64> {
        let tail = self.tail.load();
        self.place(tail)?.store(value);
        self.tail.store(tail.wrapping_add(1));
        Some(DONE)
    }

    fn dequeue(&self) -> Option<u64> {
        let head = self.head.load();
        if head == self.tail.load() {
            return Some(NONE);
        }
        let value = self.place(head)?.load();
        self.head.store(head.wrapping_add(1));
        Some(wrapping_value_reply(u64::from(value)))
    }

    fn steps(&self, op: OpWord) -> Option<u64> {
        match QueueOperation::from_word(op)? {
            QueueOperation::Enqueue(value) => self.enqueue(value),
            QueueOperation::Dequeue => self.dequeue(),
        }
    }

    fn answer(&self, op: OpWord) -> Option<u64> {
        if self.torn {
            return self.steps(op);
        }
        let _held = self.lock.lock()?;
        self.steps(op)
    }
}

impl BlackBox for Ring {
    ghost use Rattle.hunts.specs.Silence.{tells_none};

    type Pass = CountingPass;

    ghost tells_each = { tells_none };

    fn call(&self, pass: &mut CountingPass, announced: &Announced) -> u64 {
        pass.count();
        self.answer(announced.op()).unwrap_or(BAD)
    }
}

/// Makes rings.
#[derive(Clone, Copy)]
pub(crate) struct Rings {
    pub(crate) torn: bool,
}

impl Maker<Ring> for Rings {
    fn open(
        &self,
        alloc: Global,
        script: &Script,
        noise: Noise,
    ) -> Result<(Ring, Vec<CountingPass>), NoMemory> {
        let mut places = Vec::new(alloc);
        for _ in 0..calls_of_script(script) {
            places.push(NoisyCell::new(&noise, 0)?)?;
        }
        let ring = Ring {
            torn: self.torn,
            places,
            head: NoisyCell::new(&noise, 0)?,
            tail: NoisyCell::new(&noise, 0)?,
            lock: NoisyLock::new(&noise, ())?,
        };
        Ok((ring, CountingPass::for_script(alloc, script)?))
    }
}
