//! A stack of linked places, with or without the check of its top (Treiber 1986).

use crate::trial::calls_of_script;
use book_base::{BAD, NoMemory, OpWord};
use client_scripts::Script;
use drv_wrapper::{Announced, BlackBox};
use hunts::{CountingPass, Maker, Noise, NoisyCell};
use seq_objects::{DONE, NONE, StackOperation, wrapping_value_reply};
use std::alloc::Global;

// How often a call tries to change the top. Each failure is another call's success, so no call
// needs more tries than there are calls.
const TRIES: u32 = 4096;

/// A place of a stack: a value, and the number of the place below it.
#[derive(Drop)]
struct StackPlace {
    value: NoisyCell<u32>,
    below: NoisyCell<u32>,
}

/// A stack of linked places, each used once. Places are numbered from 1, and 0 is none. A call
/// changes the top only where it is still the one that the call has seen, or, in a stack without
/// the check, in any case.
#[derive(Drop)]
pub(crate) struct Stack {
    checks: bool,
    places: Vec<StackPlace>,
    used: NoisyCell<u32>,
    top: NoisyCell<u32>,
}

impl Stack {
    // The place of a number above 0.
    fn place(&self, number: u32) -> Option<&StackPlace> {
        self.places.get(number.wrapping_sub(1) as usize)
    }

    // Puts another number at the top in place of the one that the call has seen. The answer is
    // whether this is done.
    fn changes(&self, seen: u32, other: u32) -> bool {
        if self.checks {
            return self.top.compare_exchange(seen, other).is_ok();
        }
        self.top.store(other);
        true
    }

    fn push(&self, value: u32) -> Option<u64> {
        let number = self.used.fetch_add(1).wrapping_add(1);
        let place = self.place(number)?;
        place.value.store(value);
        for _ in 0..TRIES {
            let seen = self.top.load();
            place.below.store(seen);
            if self.changes(seen, number) {
                return Some(DONE);
            }
        }
        None
    }

    fn pop(&self) -> Option<u64> {
        for _ in 0..TRIES {
            let seen = self.top.load();
            if seen == 0 {
                return Some(NONE);
            }
            let place = self.place(seen)?;
            if self.changes(seen, place.below.load()) {
                return Some(wrapping_value_reply(u64::from(place.value.load())));
            }
        }
        None
    }

    fn answer(&self, op: OpWord) -> Option<u64> {
        match StackOperation::from_word(op)? {
            StackOperation::Push(value) => self.push(value),
            StackOperation::Pop => self.pop(),
        }
    }
}

impl BlackBox for Stack {
    ghost use Rattle.hunts.specs.Silence.{tells_none};

    type Pass = CountingPass;

    ghost tells_each = { tells_none };

    fn call(&self, pass: &mut CountingPass, announced: &Announced) -> u64 {
        pass.count();
        self.answer(announced.op()).unwrap_or(BAD)
    }
}

/// Makes stacks.
#[derive(Clone, Copy)]
pub(crate) struct Stacks {
    pub(crate) checks: bool,
}

impl Maker<Stack> for Stacks {
    fn open(
        &self,
        alloc: Global,
        script: &Script,
        noise: Noise,
    ) -> Result<(Stack, Vec<CountingPass>), NoMemory> {
        let mut places = Vec::new(alloc);
        for _ in 0..calls_of_script(script) {
            places.push(StackPlace {
                value: NoisyCell::new(&noise, 0)?,
                below: NoisyCell::new(&noise, 0)?,
            })?;
        }
        let stack = Stack {
            checks: self.checks,
            places,
            used: NoisyCell::new(&noise, 0)?,
            top: NoisyCell::new(&noise, 0)?,
        };
        Ok((stack, CountingPass::for_script(alloc, script)?))
    }
}
