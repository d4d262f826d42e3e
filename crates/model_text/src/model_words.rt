//! The words of a model's operations.

ghost use Rattle.std.specs.Prelude.{◌≡◌, ◌≢◌, ◌↔◌, ℕ, ◌+◌, ◌<◌, ◌^◌, ◌++◌, false, Some, codes, decimal, IfSome, IfNone, IsTrue, OnOk, option_copied};
ghost use Rattle.book_text.specs.Fields.{spaced};
ghost use Rattle.model_text.specs.ModelWords.{is_numbered, other_word, model_words, model_operations};
ghost use Rattle.model_text.specs.ModelWordLaws.{one_model_operation, solid_model_words, few_model_words};

use book_base::{NoMemory, OpWord};
use book_text::fields::{put_operation, put_spaced};
use seq_objects::{Kind, number};
use text_fields::OpText;

// The operation word of the number 0. The words of the numbers below 2^32 follow it.
const FIRST: OpWord = 1 << 32;

// How many numbers there are.
const NUMBERS: u64 = 1 << 32;

/// The words of a model's operations in a text of version 2: `op` and a number below 2^32, or `#`
/// and the whole operation word in digits.
#[derive(Clone, Copy, Debug)]
pub struct ModelWords;

impl OpText for ModelWords {
    ghost operations = { λ _. model_operations };

    fn read_op(
        &self,
        first: &[u8],
        second: Option<&[u8]>,
        _third: Option<&[u8]>,
    ) -> Option<(OpWord, u32)> {
        if is_name(first) {
            let number = operation_number(second)?;
            return Some((FIRST + OpWord::from(number), 1));
        }
        let op = other(first)?;
        Some((op, 0))
    }

    ghost one_operation = { λ _. one_model_operation };

    ghost solid_words = { λ _. solid_model_words };

    ghost few_words = { λ _ op _. few_model_words op };
}

/// Appends the words of a model's operation, each after a space.
pub fn put_model_operation(out: &mut Vec<u8>, op: OpWord) -> Result<(), NoMemory>
    // After an answer Ok the operation's words, with a space before each, are appended to what the
    // vector held.
    ensures { OnOk result (out.new.items ≡ out.old.items ++ spaced (model_words op)) }
{
    if is_numbered(op) {
        out.extend_from_slice(b" op")?;
        put_spaced(out, (op - FIRST) as u64)
    } else {
        put_operation(out, Kind::Counter, op)
    }
}

/// Whether an operation word is that of a number.
fn is_numbered(op: OpWord) -> bool
    ensures { result ≡ is_numbered op }
{
    op >= FIRST && op < 2 * FIRST
}

/// Whether a word is the name of the operations that have a number.
fn is_name(word: &[u8]) -> bool
    ensures { IsTrue result ↔ (word.now ≡ codes "op") }
{
    word == b"op".as_slice()
}

/// The number below 2^32 that a word spells.
fn operation_number(word: Option<&[u8]>) -> Option<u32>
    ensures found { IfSome result
        (λ n. (n < 2 ^ 32) × (option_copied word.entry ≡ Some (decimal n))) }
    ensures none { IfNone result ((n : ℕ) → n < 2 ^ 32
        → option_copied word.entry ≢ Some (decimal n)) }
{
    let number = number(word?)?;
    if number < NUMBERS {
        Some(number as u32)
    } else {
        None
    }
}

/// The operation without a number that this one word spells, as for a counter. A counter knows only
/// one operation word, that of the number 0; for each operation without a number it has the word
/// `#` with the whole operation word in digits.
fn other(word: &[u8]) -> Option<OpWord>
    ensures found { IfSome result (λ op.
        (op < 2 ^ 128) × (is_numbered op ≡ false) × (word.now ≡ other_word op)) }
    ensures none { IfNone result ((op : ℕ) → op < 2 ^ 128
        → is_numbered op ≡ false → word.now ≢ other_word op) }
{
    let (op, _used) = Kind::Counter.op_from_words(word, None, None)?;
    if is_numbered(op) { None } else { Some(op) }
}
