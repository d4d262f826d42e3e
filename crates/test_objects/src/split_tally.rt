ghost use Rattle.std.specs.Prelude.{◌≡◌};
ghost use Rattle.test_objects.specs.Forms.{increment, cell_may, IsTallyReply};
ghost use Rattle.test_objects.specs.FaultyForms.{IsSplit, IsTorn};
ghost use Rattle.test_objects.specs.FaultyTogether.{TellOneSplit};

use crate::word_object::{WordCalls, WordObject};
use book_base::{BAD, OpWord};
use seq_objects::wrapping_value_reply;
use shared_words::{SharedWords, Usage, WordSeat};

/// The operation word of the increment.
const INCREMENT: OpWord = 1 << 32;

/// Callers of a split tally load its one word and store into it, and do nothing else.
pub struct TornIncrements;

impl Usage for TornIncrements {
    ghost may = { cell_may };
}

impl WordCalls for TornIncrements {
    ghost count = { λ n cap. 1 };

    ghost call = { λ n cap caller. IsSplit };

    // The reply is a value to the increment, and `bad` to any other operation.
    ghost form = { IsTallyReply };

    // An increment loads the word and later stores one more, modulo 2^64, maybe with accesses of
    // other callers between the two. The load found what the last store before it stored, or 0
    // where there is none, and the reply gives the loaded word.
    ghost known = { λ caller op reply history. op ≡ increment → IsTorn caller reply history };

    // Each load found what the last store before it stored, or 0 where there is no store before it.
    ghost tells = { λ n cap. TellOneSplit n };

    fn count(_n: u32, _cap: u64) -> usize {
        1
    }

    fn reply(words: &SharedWords<TornIncrements>, seat: &mut WordSeat, op: OpWord) -> u64 {
        if op != INCREMENT {
            return BAD;
        }
        let found = words.load(seat, 0);
        words.store(seat, 0, found.wrapping_add(1));
        wrapping_value_reply(found)
    }

    fn tells_together() {}
}

/// A counter whose increment is torn: a load, and then a store of one more. So increments that
/// overlap may be lost.
pub type SplitTally = WordObject<TornIncrements>;
