//! The line of a call, by itself.

ghost use Rattle.std.specs.Prelude.{◌≡◌, ◌≢◌, ℕ, ◌≤◌, ◌∷◌, ◌++◌, List, length, decimal, IfOk, IfErr, IfSome, IfNone};
ghost use Rattle.book_base.specs.declared.TheConstants.{MAX_CALLERS};
ghost use Rattle.text_fields.specs.Lines.{words_of};
ghost use Rattle.book_text.specs.CallLines.{place_words, answer_words, EntryFails};
ghost use Rattle.text_fields.specs.Faults.{IsFirstTest};
ghost use Rattle.book_text.specs.Entries.{IsEntryAnswer, IsEntry, BeginWith, BeginWithNone, IsNoAnswer};

use crate::view::read_view;
use book_base::{Call, OpWord, Record, What};
use seq_objects::reply_from_word;
use text_fields::{OpText, Version, Words, next_number};

/// What the line of a call says.
#[derive(Clone, Copy)]
pub(crate) struct CallEntry {
    pub(crate) op: OpWord,
    pub(crate) answer: Option<Record>,
}

/// What the line of this call says, in a text of `n` callers. Where `gap` says that an earlier call
/// of the same caller is unanswered, the line must have no answer.
pub(crate) fn read_entry<T: OpText>(
    version: Version,
    operations: &T,
    line: &[u8],
    call: Call,
    n: u32,
    gap: bool,
) -> Result<CallEntry, What>
    requires some { 1 ≤ n }
    requires few { n ≤ MAX_CALLERS }
    ensures found { IfOk result (λ entry. IsEntry version (T.operations operations.now)
        n gap call (words_of line.now) entry.op entry.answer) }
    ensures refused { IfErr result (λ what. IsFirstTest
        (EntryFails version (T.operations operations.now) n gap call (words_of line.now)) what) }
{
    let mut words = Words::new(line);
    let Some(()) = take_place(&mut words, call) else {
        return Err(What::Place);
    };
    let Some(op) = take_operation(operations, &mut words) else {
        return Err(What::Op);
    };
    match read_answer(version, &mut words, n, gap) {
        Ok(answer) => Ok(CallEntry { op, answer }),
        Err(what) => Err(what),
    }
}

/// Takes the caller and the number of this call.
pub fn take_place(words: &mut Words, call: Call) -> Option<()>
    // An answer Some comes only where the words began with the call's caller and number, and these
    // are taken.
    ensures found { IfSome result (λ _. words.old ≡ place_words call ++ words.new) }
    // An answer None comes only where the words don't begin with the call's caller and number.
    ensures none { IfNone result ((suffix : List (List ℕ))
        → words.old ≢ place_words call ++ suffix) }
{
    take_due(words, u64::from(call.caller))?;
    take_due(words, call.number)
}

/// Takes the next word, which is to be the number that is due.
fn take_due(words: &mut Words, due: u64) -> Option<()>
    ensures found { IfSome result (λ _. words.old ≡ decimal due ∷ words.new) }
    ensures none { IfNone result ((suffix : List (List ℕ)) → words.old ≢ decimal due ∷ suffix) }
{
    let n = next_number(words, due)?;
    if n == due { Some(()) } else { None }
}

/// Takes the words of an operation.
pub fn take_operation<T: OpText>(operations: &T, words: &mut Words) -> Option<OpWord>
    // An operation that was found is the one whose words came first, and these words are taken.
    ensures found { IfSome result (λ op.
        BeginWith (T.operations operations.now) words.old op words.new) }
    // No operation is found only where the words begin with those of no operation.
    ensures none { IfNone result (BeginWithNone (T.operations operations.now) words.old) }
{
    let first = words.next()?;
    let mut ahead = words.copy();
    let second = ahead.next();
    let third = ahead.next();
    let (op, used) = operations.read_op(first, second, third)?;
    for _ in 0..used {
        words.next();
    }
    Some(op)
}

/// The answer, where words follow the operation.
fn read_answer(
    version: Version,
    words: &mut Words,
    n: u32,
    gap: bool,
) -> Result<Option<Record>, What>
    requires some { 1 ≤ n }
    requires few { n ≤ MAX_CALLERS }
    ensures found { IfOk result (λ answer.
        IsEntryAnswer n gap answer × (words.old ≡ answer_words version answer)) }
    ensures refused { IfErr result (λ what. IsNoAnswer version n gap words.old what) }
{
    let Some(word) = words.next() else {
        return Ok(None);
    };
    if gap {
        return Err(What::Gap);
    }
    let Some(reply) = reply_from_word(word) else {
        return Err(What::Reply);
    };
    match read_view(version, words, n) {
        Some(view) => Ok(Some(Record { reply, view })),
        None => Err(What::View),
    }
}
