ghost use Rattle.std.specs.Prelude.{◌≡◌, ◌+◌, ◌≤◌, false, length};
ghost use Rattle.test_objects.specs.Replays.{list_after};
ghost use Rattle.test_objects.specs.Lossy.{without_second_puts, lossy_reply};

use crate::calls::{is_put, make_unless};
use crate::{Entry, Machine, Scratch};
use book_base::{GrowsByOne, State};

/// The machine that loses: each second put of the log gets its lawful reply and is dropped.
#[derive(Clone, Copy, Debug)]
pub struct Lossy<S: GrowsByOne> {
    pub object: S,
}

impl<S: GrowsByOne> Lossy<S> {
    // Applies the operations of a log to the state, without each second put.
    fn replay(&self, log: &[Entry], state: &mut State)
        requires { length state.old.words + length log.now ≤ state.old.room }
        ensures list { state.new ≡ record state.old {
          words = list_after (S.spec self.now.object).next state.old.words
              (without_second_puts false log.now);
        } }
        ensures few { length state.new.words ≤ length state.old.words + length log.now }
    {
        let mut second = false;
        for entry in log {
            let put = is_put(entry.op);
            make_unless(put && second, &self.object, state, entry.op);
            second = if put { !second } else { second };
        }
    }
}

impl<S: GrowsByOne> Machine for Lossy<S> {
    ghost reply_to = { λ m. lossy_reply (S.spec m.object) };

    fn answer(&self, log: &[Entry], scratch: &mut Scratch) -> u64 {
        let last = log.len() - 1;
        self.object.reset(&mut scratch.state);
        self.replay(&log[..last], &mut scratch.state);
        self.object.step(&mut scratch.state, log[last].op)
    }
}
