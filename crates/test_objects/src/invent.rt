ghost use Rattle.std.specs.Prelude.{◌≡◌, ◌+◌, ◌≤◌, length};
ghost use Rattle.shared_words.specs.Entries.{calls_by};
ghost use Rattle.test_objects.specs.Replays.{list_after};
ghost use Rattle.test_objects.specs.Invent.{invent_reply};

use crate::{Entry, Machine, Scratch};
use book_base::{GrowsByOne, State};
use seq_objects::wrapping_value_reply;

/// The machine that invents: the third call of each caller changes the list lawfully, but its reply
/// is the value 99.
#[derive(Clone, Copy, Debug)]
pub struct Invent<S: GrowsByOne> {
    pub object: S,
}

// How many entries of a log are of this caller.
fn calls_of(log: &[Entry], caller: u32) -> usize
    ensures { result ≡ length (calls_by caller log.now) }
{
    log.iter().filter(|entry| entry.caller == caller).count()
}

impl<S: GrowsByOne> Invent<S> {
    // Applies the operations of a log to the state.
    fn replay(&self, log: &[Entry], state: &mut State)
        requires { length state.old.words + length log.now ≤ state.old.room }
        ensures list { state.new ≡ record state.old {
          words = list_after (S.spec self.now.object).next state.old.words log.now;
        } }
        ensures few { length state.new.words ≤ length state.old.words + length log.now }
    {
        for entry in log {
            self.object.step(state, entry.op);
        }
    }
}

impl<S: GrowsByOne> Machine for Invent<S> {
    ghost reply_to = { λ m. invent_reply (S.spec m.object) };

    fn answer(&self, log: &[Entry], scratch: &mut Scratch) -> u64 {
        let last = log.len() - 1;
        let earlier = &log[..last];
        if calls_of(earlier, log[last].caller) == 2 {
            return wrapping_value_reply(99);
        }
        self.object.reset(&mut scratch.state);
        self.replay(earlier, &mut scratch.state);
        self.object.step(&mut scratch.state, log[last].op)
    }
}
