//! The lines of a book's calls.

ghost use Rattle.std.specs.Prelude.{◌≡◌, ◌≢◌, ◌⊎◌, ℕ, ◌+◌, ◌<◌, ◌≤◌, ◌∷◌, [], length, slice_index, IfOk, IfErr, IfSome, IfNone, IsSomeAnd, OnOk, MatchResult, List};
ghost use Rattle.book_base.specs.declared.TheConstants.{MAX_CALLERS, MAX_CALLS};
ghost use Rattle.book_base.specs.declared.fault.BookFault.{BookFault};
ghost use Rattle.book_base.specs.declared.fault.TextFault.{TextFault};
ghost use Rattle.book_base.specs.Book.{Page, IsCall, calls_of, answers_of};
ghost use Rattle.text_fields.specs.Lines.{Unread};
ghost use Rattle.book_base.specs.Refusal.{MayAnswer, IsFirstFault};
ghost use Rattle.text_fields.specs.declared.version.Version.TheVariants.{Second};
ghost use Rattle.book_text.specs.CallLines.{AreCallLines, AreNoCallLines, IsFirstCallFault, AreRead, AreStopped, IsUnanswered, MayRefuse, calls_from, is_gap as is_gap_lem, view_test, with_line};

use crate::entry::{CallEntry, read_entry};
use book_base::{Book, BookFault, Call, Cut, ReadFault, Record, TextFault, What};
use std::alloc::Global;
use text_fields::{Lines, OpText, Version};

/// Reads the lines of a book's calls in a text of version 2, with the operations in the words that
/// `operations` has for them, and answers the book; the lines after those of the calls are left
/// unread.
///
/// `calls` has the number of calls of each of the `n` callers. A text fault is the first fault of
/// the lines of the calls. After a refusal the lines stay as they were.
pub fn read_calls<T: OpText>(
    alloc: Global,
    lines: &mut Lines,
    n: u32,
    calls: &Cut,
    operations: &T,
) -> Result<Book, ReadFault>
    // There is one number of calls for each caller.
    requires callers { length calls.now ≡ n }
    // Each caller has at most `MAX_CALLS` calls.
    requires few { (i : ℕ) → slice_index calls.now i ≤ MAX_CALLS }
    // A book that was read is the one that the first unread lines give, one line for each call; the
    // lines after them are left.
    ensures found { IfOk result (λ book.
        AreCallLines Second (T.operations operations.now) calls.now book lines.old lines.new) }
    // A refusal is the first fault of the lines, or want of memory.
    ensures refused { IfErr result
        (AreNoCallLines Second (T.operations operations.now) calls.now lines.old) }
    // A refusal leaves the lines as they were.
    ensures unchanged { IfErr result (λ _. lines.new ≡ lines.old) }
    // Where the unread text begins with the lines of a book's calls, the answer is this book, and
    // the lines after them are left, unless memory runs out.
    ensures only { (book : List Page) (left : Unread)
        → AreCallLines Second (T.operations operations.now) calls.now book lines.old left
        → MatchResult result (λ b. (b ≡ book) × (lines.new ≡ left)) (λ e. e ≡ ReadFault.NoMemory) }
    // Where the lines have a first fault, the answer is that fault, unless memory runs out.
    ensures first { (fault : TextFault)
        → IsFirstCallFault Second (T.operations operations.now) calls.now lines.old fault
        → MatchResult result (λ _. ⊥)
        (λ e. (e ≡ ReadFault.Text fault) ⊎ (e ≡ ReadFault.NoMemory)) }
{
    let callers = calls.n();
    prove!(callers == n);
    let mut ahead = lines.copy();
    let book = read_calls_of(Version::Second, alloc, &mut ahead, calls, operations)?;
    *lines = ahead;
    Ok(book)
}

/// The book whose calls the lines give, in a text of this version.
pub(crate) fn read_calls_of<T: OpText>(
    version: Version,
    alloc: Global,
    lines: &mut Lines,
    calls: &Cut,
    operations: &T,
) -> Result<Book, ReadFault>
    requires { (i : ℕ) → slice_index calls.now i ≤ MAX_CALLS }
    ensures found { IfOk result (λ book.
        AreCallLines version (T.operations operations.now) calls.now book lines.old lines.new) }
    ensures refused { IfErr result
        (AreNoCallLines version (T.operations operations.now) calls.now lines.old) }
{
    let mut book = Book::with_calls(alloc, calls)?;
    for i in 0..calls.n() {
        read_caller(version, lines, operations, &mut book, i, calls.get(i))?;
    }
    Ok(book)
}

/// Reads the lines of a caller's first `count` calls.
fn read_caller<T: OpText>(
    version: Version,
    lines: &mut Lines,
    operations: &T,
    book: &mut Book,
    i: u32,
    count: u64,
) -> Result<(), ReadFault>
    requires calls { count ≤ calls_of book.old i }
    requires unanswered { answers_of book.old i ≡ 0 }
    ensures found { OnOk result (AreRead version (T.operations operations.now)
        (calls_from i 0 count) book.old lines.old book.new lines.new) }
    ensures refused { IfErr result (AreStopped version (T.operations operations.now)
        (calls_from i 0 count) book.old lines.old) }
    ensures calls { OnOk result ((j : ℕ) → calls_of book.new j ≡ calls_of book.old j) }
    ensures others { OnOk result ((j : ℕ) → j ≢ i → answers_of book.new j ≡ answers_of book.old j) }
{
    for number in 0..count {
        let call = Call { caller: i, number };
        read_call(version, lines, operations, book, call)?;
    }
    Ok(())
}

/// Reads the line of this call.
fn read_call<T: OpText>(
    version: Version,
    lines: &mut Lines,
    operations: &T,
    book: &mut Book,
    call: Call,
) -> Result<(), ReadFault>
    requires call { IsCall book.old call }
    requires unanswered { IsUnanswered book.old call }
    ensures found { OnOk result (AreRead version (T.operations operations.now)
        (call ∷ []) book.old lines.old book.new lines.new) }
    ensures refused { IfErr result (AreStopped version (T.operations operations.now)
        (call ∷ []) book.old lines.old) }
    ensures calls { OnOk result ((j : ℕ) → calls_of book.new j ≡ calls_of book.old j) }
    ensures answers { OnOk result (answers_of book.new call.caller ≤ call.number + 1) }
    ensures others { OnOk result ((j : ℕ)
        → j ≢ call.caller → answers_of book.new j ≡ answers_of book.old j) }
{
    let number = lines.number();
    let line = lines.line()?;
    let n = book.callers();
    let gap = is_gap(book, call);
    match read_entry(version, operations, line, call, n, gap) {
        Ok(entry) => match record_entry(book, call, entry) {
            Ok(()) => Ok(()),
            Err(fault) => Err(refusal(number, fault)),
        },
        Err(what) => Err(ReadFault::Text(TextFault { line: number, what })),
    }
}

/// Whether an earlier call of this call's caller is unanswered.
fn is_gap(book: &Book, call: Call) -> bool
    requires { call.caller < length book.now }
    ensures { result ≡ is_gap_lem book.now call }
{
    book.answers(call.caller) < call.number
}

/// Puts into the book what the line of this call says.
fn record_entry(book: &mut Book, call: Call, entry: CallEntry) -> Result<(), BookFault>
    requires call { IsCall book.old call }
    requires unanswered { IsUnanswered book.old call }
    requires wide { IfSome entry.answer (λ r. length r.view ≡ length book.old) }
    ensures ok { OnOk result (book.new ≡ with_line book.old call entry.op entry.answer) }
    ensures may { OnOk result (IfSome entry.answer (λ r. MayAnswer book.old call.caller r.view)) }
    ensures refused { IfErr result (λ e. (e ≡ BookFault.NoMemory)
        ⊎ IsSomeAnd entry.answer (λ r. IsFirstFault book.old call.caller r.view e)) }
    ensures causes { IfErr result MayRefuse }
{
    let CallEntry { op, answer } = entry;
    match answer {
        None => book.set_op(call, op),
        Some(Record { reply, view }) => {
            book.add_answer(call.caller, reply, view)?;
            book.set_op(call, op);
        }
    }
    Ok(())
}

/// The fault with which a text is refused where the book refused the view in this line.
pub fn refusal(line: u64, fault: BookFault) -> ReadFault
    // The fault is one of a test of views, or want of memory.
    requires { MayRefuse fault }
    // A fault of a test of views is answered as a refusal of this line with the name of that test.
    ensures text { IfSome (view_test fault) (λ what.
        result ≡ ReadFault.Text (record { line = line; what = what })) }
    // Want of memory is answered as `NoMemory`.
    ensures memory { IfNone (view_test fault) (result ≡ ReadFault.NoMemory) }
{
    let what = match fault {
        BookFault::ViewOutside(_) => What::ViewOutside,
        BookFault::ViewLacksOwn(_) => What::ViewLacksOwn,
        BookFault::ViewHasLater(_) => What::ViewHasLater,
        BookFault::ViewsCross(_) => What::ViewsCross,
        BookFault::NoMemory => return ReadFault::NoMemory,
        BookFault::TooManyCalls | BookFault::NoSuchCall => unreachable!(),
    };
    ReadFault::Text(TextFault { line, what })
}
