ghost use Rattle.std.specs.Prelude.{◌≡◌, ◌<◌};
ghost use Rattle.std.specs.Bool.{OnTrue, OnFalse};
ghost use mathlib.Core.List.{IsPrefix};
ghost use Rattle.shared_words.specs.Passes.{count_of, caller_of_seat, history_of, deeds_of, IsSeatOf};
ghost use Rattle.seq_objects.specs.Replies.{reply_done};
ghost use Rattle.test_objects.specs.FaultyForms.{most_loads, other_caller, meeting_may, HasRaised, IsSeen, IsMissed, IsMeeting, IsMeetingReply};
ghost use Rattle.test_objects.specs.FaultyTogether.{TellOneMeeting};

use crate::word_object::{WordCalls, WordObject};
use book_base::{BAD, OpWord};
use seq_objects::DONE;
use shared_words::{SharedWords, Usage, WordSeat};
use std::hint::spin_loop;

/// The word of a flag that is up.
const UP: u64 = 1;

/// The most loads of the other caller's flag that a call of a meeting makes.
const MOST_LOADS: u32 = 100_000_000;

/// A caller of a meeting may raise its own flag and load any flag, and nothing else.
pub struct Flags;

impl Usage for Flags {
    ghost may = { meeting_may };
}

// Loads a flag until it is found up, at most `MOST_LOADS` times, and returns whether it was found
// up.
fn sees(words: &SharedWords<Flags>, seat: &mut WordSeat, flag: usize) -> bool
    requires seat { IsSeatOf meeting_may words.now seat.old }
    requires flag { flag < count_of words.now }
    ensures seat { IsSeatOf meeting_may words.now seat.new }
    ensures caller { caller_of_seat seat.new ≡ caller_of_seat seat.old }
    ensures seen { OnTrue result (IsSeen flag (deeds_of seat.old) (deeds_of seat.new)) }
    ensures missed { OnFalse result (IsMissed flag most_loads
        (deeds_of seat.old) (deeds_of seat.new)) }
    ensures history { IsPrefix (history_of seat.old) (history_of seat.new) }
    ensures raised { OnTrue result (HasRaised flag (history_of seat.new)) }
{
    for _turn in 0..MOST_LOADS {
        let found = words.load(seat, flag);
        if found == UP {
            return true;
        }
        spin_loop();
    }
    false
}

impl WordCalls for Flags {
    ghost count = { λ n cap. n };

    // There are two callers.
    ghost serves = { λ n. 2 };

    ghost call = { λ n cap caller op. IsMeeting caller };

    // The reply is `done` or `bad`.
    ghost form = { λ op. IsMeetingReply };

    // The reply is `done` only where the other caller has raised its flag.
    ghost known = { λ caller op reply history. reply ≡ reply_done → HasRaised (other_caller caller) history };

    // A flag is found up only after the caller to whom it belongs has raised it.
    ghost tells = { λ n cap. TellOneMeeting n };

    fn count(n: u32, _cap: u64) -> usize {
        n as usize
    }

    fn reply(words: &SharedWords<Flags>, seat: &mut WordSeat, _op: OpWord) -> u64 {
        let caller = seat.caller();
        words.store(seat, caller as usize, UP);
        if sees(words, seat, 1 - caller as usize) {
            DONE
        } else {
            BAD
        }
    }

    fn tells_together() {}
}

/// A meeting of two callers: each raises its own flag, which stays up, and waits a while for the
/// other one's flag to be up. A call that ends before the other caller's first call begins waits in
/// vain, and its reply is `bad`. So where the first call of each caller has the reply `done`, these
/// two calls overlap. Whatever its operation, a call does the same.
pub type Meeting = WordObject<Flags>;
