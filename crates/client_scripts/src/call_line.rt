//! The line of a call, by itself.

ghost use Rattle.std.specs.Prelude.{◌≡◌, ◌≢◌, ℕ, ◌<◌, length, option_copied, IfOk, IfErr, IfSome, IfNone};
ghost use Rattle.seq_objects.specs.Words.{operation_words, further};
ghost use Rattle.text_fields.specs.Version.{word_limit};
ghost use Rattle.text_fields.specs.Lines.{words_of};
ghost use Rattle.text_fields.specs.Faults.{IsFirstTest};
ghost use Rattle.client_scripts.specs.ScriptRules.{IsCallLine, CallFails};

use book_base::{Call, OpWord, What};
use book_text::take_place;
use text_fields::{KindWords, OpText, Words};

/// The operation that the line of this call gives.
pub(crate) fn read_call_line(
    operations: &KindWords,
    line: &[u8],
    call: Call,
) -> Result<OpWord, What>
    ensures found { IfOk result (λ op.
        IsCallLine operations.now.version operations.now.kind call (words_of line.now) op) }
    ensures refused { IfErr result (IsFirstTest
        (CallFails operations.now.version operations.now.kind call (words_of line.now))) }
{
    let mut words = Words::new(line);
    let Some(()) = take_place(&mut words, call) else {
        return Err(What::Place);
    };
    match read_operation(operations, &mut words) {
        Some(op) => Ok(op),
        None => Err(What::Op),
    }
}

/// The operation whose words are all that is left of a line.
fn read_operation(operations: &KindWords, words: &mut Words) -> Option<OpWord>
    ensures found { IfSome result (λ op. (op < word_limit operations.now.version)
        × (words.old ≡ operation_words operations.now.kind op)) }
    ensures none { IfNone result ((op : ℕ) → op < word_limit operations.now.version
        → words.old ≢ operation_words operations.now.kind op) }
{
    let first = words.next()?;
    let second = words.next();
    let third = words.next();
    if words.next().is_some() {
        return None;
    }
    let given = count_further(second, third);
    let (op, used) = operations.read_op(first, second, third)?;
    if used == given { Some(op) } else { None }
}

/// How many words follow a first one.
fn count_further(second: Option<&[u8]>, third: Option<&[u8]>) -> u32
    ensures { result ≡ length (further (option_copied second.entry) (option_copied third.entry)) }
{
    match (second, third) {
        (None, _) => 0,
        (Some(_), None) => 1,
        (Some(_), Some(_)) => 2,
    }
}
