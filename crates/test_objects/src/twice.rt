ghost use Rattle.std.specs.Prelude.{◌≡◌, ◌+◌, ◌≤◌, length};
ghost use Rattle.test_objects.specs.Replays.{list_after};
ghost use Rattle.test_objects.specs.Twice.{without_takes, twice_reply};

use crate::calls::{is_take, make_unless};
use crate::{Entry, Machine, Scratch};
use book_base::{GrowsByOne, State};

/// The machine that gives an item twice: a take gets its lawful reply, but doesn't change the list.
#[derive(Clone, Copy, Debug)]
pub struct Twice<S: GrowsByOne> {
    pub object: S,
}

impl<S: GrowsByOne> Twice<S> {
    // Applies the operations of a log that aren't takes to the state.
    fn replay(&self, log: &[Entry], state: &mut State)
        requires { length state.old.words + length log.now ≤ state.old.room }
        ensures list { state.new ≡ record state.old {
          words = list_after (S.spec self.now.object).next state.old.words (without_takes log.now);
        } }
        ensures few { length state.new.words ≤ length state.old.words + length log.now }
    {
        for entry in log {
            make_unless(is_take(entry.op), &self.object, state, entry.op);
        }
    }
}

impl<S: GrowsByOne> Machine for Twice<S> {
    ghost reply_to = { λ m. twice_reply (S.spec m.object) };

    fn answer(&self, log: &[Entry], scratch: &mut Scratch) -> u64 {
        let last = log.len() - 1;
        self.object.reset(&mut scratch.state);
        self.replay(&log[..last], &mut scratch.state);
        self.object.step(&mut scratch.state, log[last].op)
    }
}
