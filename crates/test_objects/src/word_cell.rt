ghost use Rattle.std.specs.Prelude.{◌≡◌};
ghost use Rattle.test_objects.specs.Forms.{read, IsLastRead, cell_may, IsCellCall, IsCellReply};
ghost use Rattle.test_objects.specs.Together.{TellOneCell};

use crate::word_object::{WordCalls, WordObject};
use book_base::{BAD, OpWord};
use seq_objects::{DONE, wrapping_value_reply};
use shared_words::{SharedWords, Usage, WordSeat};

/// The operation word of the write of 0. The operation word of the write of a value is this one
/// plus the value.
const WRITE_0: OpWord = 1 << 32;

/// The operation word of the read.
const READ: OpWord = 2 << 32;

/// Callers of a cell load its one word and store into it, and do nothing else.
pub struct LoadsAndStores;

impl Usage for LoadsAndStores {
    ghost may = { cell_may };
}

impl WordCalls for LoadsAndStores {
    ghost count = { λ n cap. 1 };

    ghost call = { λ n cap caller. IsCellCall };

    // The reply is `done` to a write, a value to the read, and `bad` to any other operation.
    ghost form = { IsCellReply };

    // After a read, the last access that the pass knows is its load, and the reply gives the last
    // word stored before it, or 0 where none was stored.
    ghost known = { λ caller op reply history. op ≡ read → IsLastRead caller reply history };

    // Each load found what the last store before it stored, and the word is left as the last one
    // stored; both are 0 where no store comes before.
    ghost tells = { λ n cap. TellOneCell n };

    fn count(_n: u32, _cap: u64) -> usize {
        1
    }

    fn reply(words: &SharedWords<LoadsAndStores>, seat: &mut WordSeat, op: OpWord) -> u64 {
        if op == READ {
            return wrapping_value_reply(words.load(seat, 0));
        }
        if op < WRITE_0 || op > READ {
            return BAD;
        }
        words.store(seat, 0, (op - WRITE_0) as u64);
        DONE
    }

    fn tells_together() {}
}

/// A register on one atomic word: a write is one store, and a read is one load.
pub type WordCell = WordObject<LoadsAndStores>;
