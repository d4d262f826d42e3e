//! The words of a call's line.

ghost use Rattle.std.specs.Prelude.{◌≡◌, ◌⊎◌, ◌++◌, ℕ, ◌≤◌, IfOk, IfErr, IfSome, IfNone, OnOk, length};
ghost use Rattle.book_base.specs.declared.TheConstants.{MAX_CALLERS};
ghost use Rattle.book_base.specs.Book.{IsCall, with_answer};
ghost use Rattle.book_base.specs.Refusal.{MayAnswer};
ghost use Rattle.text_fields.specs.Lines.{words_of};
ghost use Rattle.text_fields.specs.Counts.{AreNumbers, pair_words, HasBadPair, HasWordAfterPairs};
ghost use Rattle.book_text.specs.CallLines.{IsUnanswered};
ghost use Rattle.report_text.specs.ReportRules.{SaysLine, IsCut};
ghost use Rattle.report_text.specs.Parts.{SayAnswer, IsNoAnswer, IsPrefix, IsPrefixRefused, SayVerdict, IsNoVerdict, MayTell, IsAnswerRefused, answer_in, with_told, AreWordsRefused};

use book_base::{Book, Call, Cut, OpWord, ReadFault, Record, TextFault, What};
use book_text::{refusal, take_operation, take_place, take_word};
use report_lines::{Line, LineEnd};
use seq_objects::{Kind, reply_from_word};
use text_fields::{Words, read_pairs};

/// What a line says before its verdict.
#[derive(Clone, Copy)]
struct Prefix {
    op: OpWord,
    answer: Option<Record>,
}

/// Reads the line of this call, in a report about objects of this kind, and puts its operation and
/// its record into the book of the lines before it. `number` is the line's number in the text.
pub(crate) fn read_fields(
    kind: Kind,
    line: &[u8],
    number: u64,
    call: Call,
    book: &mut Book,
) -> Result<Line, ReadFault>
    requires call { IsCall book.old call }
    requires unanswered { IsUnanswered book.old call }
    ensures found { IfOk result (SaysLine kind (length book.old) call (words_of line.now)) }
    ensures may { IfOk result (λ said. MayTell book.old call (answer_in said.end)) }
    ensures book { IfOk result (λ said. book.new ≡ with_told book.old call said) }
    ensures refused { IfErr result (AreWordsRefused kind book.old call (words_of line.now) number) }
{
    let mut words = Words::new(line);
    let n = book.callers();
    match read_prefix(kind, &mut words, call, n) {
        Err(what) => Err(ReadFault::Text(TextFault { line: number, what })),
        Ok(Prefix { op, answer }) => {
            let end = match answer {
                None => LineEnd::Pending,
                Some(answer) => take_answer(book, call, answer, &mut words, number)?,
            };
            book.set_op(call, op);
            Ok(Line { op, end })
        }
    }
}

/// The call, its operation, and the answer, where there is one, at the beginning of a line.
fn read_prefix(kind: Kind, words: &mut Words, call: Call, n: u32) -> Result<Prefix, What>
    requires some { 1 ≤ n }
    requires few { n ≤ MAX_CALLERS }
    ensures found { IfOk result (λ prefix.
        IsPrefix kind n call words.old prefix.op prefix.answer words.new) }
    ensures refused { IfErr result (IsPrefixRefused kind n call words.old) }
{
    let Some(()) = take_place(words, call) else {
        return Err(What::Place);
    };
    let Some(op) = take_operation(&kind, words) else {
        return Err(What::Op);
    };
    match read_answer(words, n) {
        Ok(answer) => Ok(Prefix { op, answer }),
        Err(what) => Err(what),
    }
}

/// The answer after an operation; none where the call is pending.
fn read_answer(words: &mut Words, n: u32) -> Result<Option<Record>, What>
    requires some { 1 ≤ n }
    requires few { n ≤ MAX_CALLERS }
    ensures found { IfOk result (λ answer. SayAnswer n words.old answer words.new) }
    ensures refused { IfErr result (IsNoAnswer n words.old) }
{
    let Some(word) = words.next() else {
        return Err(What::Reply);
    };
    let Some(reply) = reply_from_word(word) else {
        return if word == b"pending".as_slice() && words.next().is_none() {
            Ok(None)
        } else {
            Err(What::Reply)
        };
    };
    let Some(()) = take_word(words, b"view") else {
        return Err(What::View);
    };
    match read_pairs(words, n) {
        Some(view) => Ok(Some(Record { reply, view })),
        None => Err(What::View),
    }
}

/// Puts this answer of the call into the book, and reads the verdict after the answer. `number` is
/// the line's number in the text.
fn take_answer(
    book: &mut Book,
    call: Call,
    answer: Record,
    words: &mut Words,
    number: u64,
) -> Result<LineEnd, ReadFault>
    requires call { IsCall book.old call }
    requires unanswered { IsUnanswered book.old call }
    requires wide { length answer.view ≡ length book.old }
    ensures found { IfOk result (SayVerdict (length book.old) answer words.old) }
    ensures may { IfOk result (λ _. MayAnswer book.old call.caller answer.view) }
    ensures book { IfOk result (λ _. book.new ≡ with_answer book.old call.caller answer) }
    ensures refused { IfErr result (IsAnswerRefused book.old call answer.view words.old number) }
{
    let n = book.callers();
    let Record { reply, view } = answer;
    match book.add_answer(call.caller, reply, view) {
        Err(fault) => Err(refusal(number, fault)),
        Ok(()) => match read_verdict(words, answer, n) {
            Ok(end) => Ok(end),
            Err(what) => Err(ReadFault::Text(TextFault { line: number, what })),
        },
    }
}

/// Reads the words after the view of this answer: 'unchecked', or a verdict with its seen cut.
fn read_verdict(words: &mut Words, answer: Record, n: u32) -> Result<LineEnd, What>
    requires some { 1 ≤ n }
    requires few { n ≤ MAX_CALLERS }
    ensures found { IfOk result (SayVerdict n answer words.old) }
    ensures refused { IfErr result (IsNoVerdict n words.old) }
{
    let Some(mark) = words.next() else {
        return Err(What::Mark);
    };
    if mark == b"unchecked".as_slice() {
        return if words.next().is_none() {
            Ok(LineEnd::Unchecked(answer))
        } else {
            Err(What::Mark)
        };
    }
    let is_delivered = mark == b"ok".as_slice();
    if !is_delivered && mark != b"error".as_slice() {
        return Err(What::Mark);
    }
    let Some(()) = take_word(words, b"seen") else {
        return Err(What::Mark);
    };
    match read_seen(words, n) {
        None => Err(What::Seen),
        Some(cut) => Ok(if is_delivered {
            LineEnd::Delivered(answer, cut)
        } else {
            LineEnd::Error(answer, cut)
        }),
    }
}

/// Reads a seen cut, which has to be the last of the line.
fn read_seen(words: &mut Words, n: u32) -> Option<Cut>
    requires some { 1 ≤ n }
    requires few { n ≤ MAX_CALLERS }
    ensures found { IfSome result (λ cut. IsCut n cut × (words.old ≡ pair_words 0 cut)) }
    ensures none { IfNone result (HasBadPair n 0 words.old ⊎ HasWordAfterPairs words.old) }
{
    let cut = read_pairs(words, n)?;
    match words.next() {
        None => Some(cut),
        Some(_) => None,
    }
}
