ghost use Rattle.std.specs.Prelude.{◌≡◌, ◌+◌, ◌≤◌, length};

use crate::machine::Machine;
use crate::scratch::Scratch;
use book_base::{GrowsByOne, State};
use shared_words::Entry;

/// The machine that answers as a sequential object does: it replays the operations of the log, all
/// of them from the list that the object begins with, or only the later ones from the list that it
/// reached at its last answer.
#[derive(Debug, Drop)]
pub struct Plain<S: GrowsByOne> {
    pub object: S,
}

impl<S: GrowsByOne> Plain<S> {
    ghost use Rattle.test_objects.specs.Replays.{list_after, last_reply};

    // Applies the operations of a log to the state, and returns the reply to the last one, or 0
    // where the log is empty.
    fn replay(&self, log: &[Entry], state: &mut State) -> u64
        requires room { length state.old.words + length log.now ≤ state.old.room }
        ensures list { state.new ≡ record state.old {
          words = list_after (S.spec self.now.object).next state.old.words log.now;
        } }
        ensures reply { result ≡ last_reply (S.spec self.now.object).next state.old.words log.now }
    {
        let mut reply = 0;
        for entry in log {
            reply = self.object.step(state, entry.op);
        }
        reply
    }
}

impl<S: GrowsByOne> Machine for Plain<S> {
    ghost use Rattle.test_objects.specs.Replays.{list_after, last_reply};

    ghost reply_to = { λ m log. last_reply (S.spec m.object).next (S.spec m.object).init log };

    ghost has_seen = { λ m log scratch. scratch.state.words ≡ list_after (S.spec m.object).next (S.spec m.object).init log };

    fn answer(&self, log: &[Entry], scratch: &mut Scratch) -> u64 {
        self.object.reset(&mut scratch.state);
        self.replay(log, &mut scratch.state)
    }

    fn go_on(&self, log: &[Entry], known: usize, scratch: &mut Scratch) -> u64 {
        if known == 0 {
            return self.answer(log, scratch);
        }
        self.replay(&log[known..], &mut scratch.state)
    }
}
