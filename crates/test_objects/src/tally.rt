ghost use Rattle.std.specs.Prelude.{◌≡◌};
ghost use Rattle.test_objects.specs.Forms.{increment, IsCounted, tally_may, IsTallied, IsTallyReply};
ghost use Rattle.test_objects.specs.Together.{TellOneTally};

use crate::word_object::{WordCalls, WordObject};
use book_base::{BAD, OpWord};
use seq_objects::wrapping_value_reply;
use shared_words::{SharedWords, Usage, WordSeat};

/// The operation word of the increment.
const INCREMENT: OpWord = 1 << 32;

/// Callers of a tally add 1 to its word, and do nothing else.
pub struct Increments;

impl Usage for Increments {
    ghost may = { tally_may };
}

impl WordCalls for Increments {
    ghost count = { λ n cap. 1 };

    ghost call = { λ n cap caller. IsTallied };

    // The reply to the increment is a value, and the reply to any other operation is `bad`.
    ghost form = { IsTallyReply };

    // After an increment, the last access that the pass knows is this increment, and the reply
    // gives the number of increments before it, modulo 2^64.
    ghost known = { λ caller op reply history. op ≡ increment → IsCounted caller reply history };

    // Each increment found the number of those before it, and the word ends as the number of all
    // increments, both modulo 2^64.
    ghost tells = { λ n cap. TellOneTally n };

    fn count(_n: u32, _cap: u64) -> usize {
        1
    }

    fn reply(words: &SharedWords<Increments>, seat: &mut WordSeat, op: OpWord) -> u64 {
        if op != INCREMENT {
            return BAD;
        }
        wrapping_value_reply(words.add(seat, 0, 1))
    }

    fn tells_together() {}
}

/// A counter on one atomic word, which an increment raises by one addition.
pub type Tally = WordObject<Increments>;
