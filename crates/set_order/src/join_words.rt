//! The words of joins.

ghost use Rattle.std.specs.Prelude.{◌≡◌, ◌≢◌, ◌↔◌, ℕ, ◌<◌, ◌^◌, false, Some, codes, decimal, IfSome, IfNone, IsTrue, option_copied};
ghost use Rattle.set_order.specs.Joins.{is_join};
ghost use Rattle.set_order.specs.JoinWords.{other_word, join_operations};
ghost use Rattle.set_order.specs.JoinLaws.{one_join, solid_join, few_join};

use crate::Joins;
use book_base::OpWord;
use seq_objects::{Kind, number};
use text_fields::OpText;

/// The words of the operations of joins in a text of version 2: `join` and a number below 32, or
/// `#` and the whole operation word in digits.
#[derive(Clone, Copy, Debug)]
pub struct JoinWords;

impl OpText for JoinWords {
    ghost operations = { λ _. join_operations };

    fn read_op(
        &self,
        first: &[u8],
        second: Option<&[u8]>,
        _third: Option<&[u8]>,
    ) -> Option<(OpWord, u32)> {
        if is_name(first) {
            let number = join_number(second)?;
            return Some((Joins::join(number), 1));
        }
        let op = other(first)?;
        Some((op, 0))
    }

    ghost one_operation = { λ _. one_join };

    ghost solid_words = { λ _. solid_join };

    ghost few_words = { λ _ op _. few_join op };
}

/// Whether a word is the name of the operations that join a number.
fn is_name(word: &[u8]) -> bool
    ensures { IsTrue result ↔ (word.now ≡ codes "join") }
{
    word == b"join".as_slice()
}

/// The number below 32 that a word spells.
fn join_number(word: Option<&[u8]>) -> Option<u32>
    ensures found { IfSome result (λ n. (n < 32) × (option_copied word.entry ≡ Some (decimal n))) }
    ensures none { IfNone result ((n : ℕ) → n < 32
        → option_copied word.entry ≢ Some (decimal n)) }
{
    let number = number(word?)?;
    if number < 32 {
        Some(number as u32)
    } else {
        None
    }
}

/// The operation that joins nothing and that this one word spells, as for a counter. A counter
/// knows only one operation word, which joins 0; for each operation that joins nothing it has the
/// word `#` with the whole operation word in digits.
fn other(word: &[u8]) -> Option<OpWord>
    ensures found { IfSome result (λ op.
        (op < 2 ^ 128) × (is_join op ≡ false) × (word.now ≡ other_word op)) }
    ensures none { IfNone result ((op : ℕ) → op < 2 ^ 128
        → is_join op ≡ false → word.now ≢ other_word op) }
{
    let (op, _used) = Kind::Counter.op_from_words(word, None, None)?;
    if Joins::knows(op) { None } else { Some(op) }
}
