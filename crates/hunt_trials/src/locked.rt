//! The sequential object of a kind behind a lock.

use crate::trial::calls_of_script;
use book_base::{BAD, MAX_CALLERS, MAX_CALLS, NoMemory, OpWord, SeqObject, State};
use client_scripts::Script;
use drv_wrapper::{Announced, BlackBox};
use hunts::{CountingPass, Maker, Noise, NoisyLock};
use seq_objects::Kind;
use std::alloc::Global;

// The greatest number of calls that a table may have.
const MOST_CALLS: u64 = MAX_CALLERS as u64 * MAX_CALLS;

/// An object of a kind: a call is one step of the sequential object, under a lock.
#[derive(Drop)]
pub(crate) struct Locked {
    kind: Kind,
    state: NoisyLock<State>,
}

impl Locked {
    fn answer(&self, op: OpWord) -> Option<u64> {
        let mut state = self.state.lock()?;
        if state.len() >= state.room() {
            return None;
        }
        Some(self.kind.step(&mut state, op))
    }
}

impl BlackBox for Locked {
    ghost use Rattle.hunts.specs.Silence.{tells_none};

    type Pass = CountingPass;

    ghost tells_each = { tells_none };

    fn call(&self, pass: &mut CountingPass, announced: &Announced) -> u64 {
        pass.count();
        self.answer(announced.op()).unwrap_or(BAD)
    }
}

/// Makes objects of a kind behind a lock.
#[derive(Clone, Copy)]
pub(crate) struct LockedObjects {
    pub(crate) kind: Kind,
}

impl Maker<Locked> for LockedObjects {
    fn open(
        &self,
        alloc: Global,
        script: &Script,
        noise: Noise,
    ) -> Result<(Locked, Vec<CountingPass>), NoMemory> {
        let operations = calls_of_script(script).min(MOST_CALLS);
        let mut state = State::with_room(alloc, self.kind.capacity(operations))?;
        self.kind.reset(&mut state);
        let object = Locked {
            kind: self.kind,
            state: NoisyLock::new(&noise, state)?,
        };
        Ok((object, CountingPass::for_script(alloc, script)?))
    }
}
