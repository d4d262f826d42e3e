//! A counter over one cell, right or torn.

use book_base::{BAD, NoMemory, OpWord};
use client_scripts::Script;
use drv_wrapper::{Announced, BlackBox};
use hunts::{CountingPass, Maker, Noise, NoisyCell};
use seq_objects::{CounterOperation, wrapping_value_reply};
use std::alloc::Global;

/// A counter: an increment is one addition, or, where the counter is torn, a load and then a store
/// of one more.
#[derive(Drop)]
pub(crate) struct Counter {
    torn: bool,
    count: NoisyCell<u32>,
}

impl Counter {
    fn increment(&self) -> u32 {
        if !self.torn {
            return self.count.fetch_add(1);
        }
        let found = self.count.load();
        self.count.store(found.wrapping_add(1));
        found
    }

    fn answer(&self, op: OpWord) -> u64 {
        match CounterOperation::from_word(op) {
            Some(CounterOperation::Increment) => wrapping_value_reply(u64::from(self.increment())),
            None => BAD,
        }
    }
}

impl BlackBox for Counter {
    ghost use Rattle.hunts.specs.Silence.{tells_none};

    type Pass = CountingPass;

    ghost tells_each = { tells_none };

    fn call(&self, pass: &mut CountingPass, announced: &Announced) -> u64 {
        pass.count();
        self.answer(announced.op())
    }
}

/// Makes counters.
#[derive(Clone, Copy)]
pub(crate) struct Counters {
    pub(crate) torn: bool,
}

impl Maker<Counter> for Counters {
    fn open(
        &self,
        alloc: Global,
        script: &Script,
        noise: Noise,
    ) -> Result<(Counter, Vec<CountingPass>), NoMemory> {
        let counter = Counter {
            torn: self.torn,
            count: NoisyCell::new(&noise, 0)?,
        };
        Ok((counter, CountingPass::for_script(alloc, script)?))
    }
}
