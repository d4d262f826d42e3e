ghost use Rattle.std.specs.Prelude.{[]};
ghost use Rattle.std.specs.Cmp.Lexicographic.{same_text};
ghost use Rattle.std.proofs.Common.{sym};
ghost use Rattle.model_examples.specs.BoundedQueues.{queue_step};

use book_base::{NoMemory, OpWord, low};
use own_objects::OwnObject;
use std::alloc::Global;

/// The operation word of a take. Its reply is the oldest value, or 0 where there is none.
pub const TAKE: OpWord = 0;

/// The reply to a put that found a free place. The operation word of a put is its value.
pub const TAKEN_IN: u64 = 1;

/// The reply to a put that found the queue full.
pub const REFUSED: u64 = 0;

/// A queue with a number of places, which refuses what finds it full.
#[derive(Clone, Copy, Debug)]
pub struct BoundedQueue {
    pub places: usize,
}

impl OwnObject for BoundedQueue {
    type State = Vec<u64>;

    type Value = [u64; 0];

    ghost value = { λ state. state.items };

    ghost initial = { λ _. [] };

    ghost next = { λ queue. queue_step queue.places };

    fn initial(&self, alloc: Global) -> Result<Vec<u64>, NoMemory> {
        Ok(Vec::new(alloc))
    }

    fn step(
        &self,
        alloc: Global,
        state: &Vec<u64>,
        op: OpWord,
    ) -> Result<(Vec<u64>, u64), NoMemory> {
        if op == TAKE {
            let Some(first) = state.first() else {
                return Ok((Vec::new(alloc), 0));
            };
            return Ok((Vec::from_slice(alloc, &state[1..])?, *first));
        }
        let mut held = Vec::from_slice(alloc, state)?;
        if held.len() < self.places {
            held.push(low(op))?;
            return Ok((held, TAKEN_IN));
        }
        Ok((held, REFUSED))
    }

    ghost same = { λ a b equal. same_text a.items b.items (sym equal) };
}
