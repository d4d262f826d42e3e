//! The book of lines: their calls and their records.

ghost use Rattle.std.specs.Prelude.{◌≡◌, ◌+◌, ◌<◌, ◌≤◌, length, IfOk, OnOk};
ghost use Rattle.book_base.specs.declared.TheConstants.{MAX_CALLERS};
ghost use Rattle.book_base.specs.Book.{IsCall, with_answer};
ghost use Rattle.book_base.specs.Refusal.{MayAnswer};
ghost use Rattle.report_lines.specs.Lines.{book_of_lines, lines_at};
ghost use Rattle.reports.specs.Findings.{sizes, IsReport};
ghost use Rattle.reports.specs.ReportLayout.{lines_in};
ghost use Rattle.reports.specs.Filling.{answer_in, with_line_of, AreOfABook, MayTake, filled_to};

use crate::report::{Own, Report};
use book_base::{Book, BookFault, Call, Cut, NoMemory, Record};
use report_lines::{Line, LineEnd};
use std::alloc::Global;

impl Report {
    /// How many lines each caller has.
    pub fn sizes(&self) -> Cut
        // The answer is how many lines each caller has.
        ensures counts { result ≡ sizes self.now.lines }
        // A text of version 2 can say the report.
        ensures report { IsReport self.now }
    {
        sizes_of(self.all())
    }

    /// The book of the report's lines: their calls, and the records of those that have one.
    pub fn book(&self, alloc: Global) -> Result<Book, NoMemory>
        ensures { IfOk result (λ book. book ≡ book_of_lines self.now.lines) }
    {
        book_of(alloc, self.all())
    }
}

/// How many lines each caller has.
fn sizes_of(callers: &[Own]) -> Cut
    requires some { 1 ≤ length callers.now }
    requires few { length callers.now ≤ MAX_CALLERS }
    ensures { result ≡ sizes (lines_in callers.now) }
{
    let count = callers.len() as u32;
    let mut counts = Cut::zero(count);
    for caller in 0..count {
        counts.set(caller, callers[caller as usize].lines.len() as u64);
    }
    counts
}

/// The book of lines, each caller's by number: their calls, and the records of those that have one.
///
/// There is at least one caller, and no more callers and calls than a book may have. Each line has
/// its record, but for a caller's last, which may have none, and the book is valid.
pub fn book_of(alloc: Global, callers: &[Own]) -> Result<Book, NoMemory>
    // The lines make a book: there is at least one caller, there are no more callers and calls than
    // a book may have, each line but a caller's last has its record, and the book of the lines is
    // valid.
    requires { AreOfABook (lines_in callers.now) }
    ensures { IfOk result (λ book. book ≡ book_of_lines (lines_in callers.now)) }
{
    let mut book = Book::with_calls(alloc, &sizes_of(callers))?;
    for caller in 0..callers.len() as u32 {
        put_caller(&mut book, callers, caller)?;
    }
    Ok(book)
}

/// The lines of a caller, by number.
fn lines_of(callers: &[Own], i: u32) -> &[Line]
    requires { i < length callers.now }
    ensures { result.now ≡ lines_at (lines_in callers.now) i }
{
    &callers[i as usize].lines
}

/// Puts the lines of a caller into the book, after those of all callers before it.
fn put_caller(book: &mut Book, callers: &[Own], caller: u32) -> Result<(), NoMemory>
    requires lines { AreOfABook (lines_in callers.now) }
    requires caller { caller < length callers.now }
    requires filled { book.old ≡ filled_to caller (lines_in callers.now) }
    ensures { OnOk result (book.new ≡ filled_to (caller + 1) (lines_in callers.now)) }
{
    let own = lines_of(callers, caller);
    for number in 0..own.len() as u64 {
        let call = Call { caller, number };
        put_line(book, call, &own[number as usize])?;
    }
    Ok(())
}

/// Puts the line of a call into the book.
fn put_line(book: &mut Book, call: Call, line: &Line) -> Result<(), NoMemory>
    requires call { IsCall book.old call }
    requires may { MayTake book.old call line.now }
    ensures { OnOk result (book.new ≡ with_line_of book.old call line.now) }
{
    if let Some(answer) = answer_of(line.end) {
        add_answer(book, call.caller, answer)?;
    }
    book.set_op(call, line.op);
    Ok(())
}

/// The record that the end of a line has, where it has one.
fn answer_of(end: LineEnd) -> Option<Record>
    ensures { result ≡ answer_in end }
{
    match end {
        LineEnd::Pending => None,
        LineEnd::Unchecked(answer) => Some(answer),
        LineEnd::Delivered(answer, _) => Some(answer),
        LineEnd::Error(answer, _) => Some(answer),
    }
}

/// Adds an answer that keeps the book valid; only want of memory refuses it.
fn add_answer(book: &mut Book, caller: u32, answer: Record) -> Result<(), NoMemory>
    requires caller { caller < length book.old }
    requires wide { length answer.view ≡ length book.old }
    requires may { MayAnswer book.old caller answer.view }
    ensures { OnOk result (book.new ≡ with_answer book.old caller answer) }
{
    match book.add_answer(caller, answer.reply, answer.view) {
        Ok(()) => Ok(()),
        Err(BookFault::NoMemory) => Err(NoMemory),
        Err(_) => unreachable!(),
    }
}
