//! What was delivered in a report: the greatest seen cut of the delivered lines, and the book at
//! that cut.

ghost use Rattle.std.specs.Prelude.{◌≡◌, ◌<◌, ℕ, max, length, slice_index, IfOk};
ghost use Rattle.book_base.specs.BookAt.{greatest_count};
ghost use Rattle.report_lines.specs.Lines.{lines_at};
ghost use Rattle.reports.specs.Findings.{IsInBook, IsReport};
ghost use Rattle.named_runs.specs.Certificates.{delivered_cuts_in, delivered_cut_of, IsDeliveredBook};

use book_base::{Book, Call, Cut, NoMemory};
use report_lines::LineEnd;
use reports::Report;
use std::alloc::Global;

/// The greatest seen cut of the delivered lines, which has for each caller the greatest count, and
/// is all zeros where no line is delivered.
pub fn delivered_cut(report: &Report) -> Cut
    // The answer is the greatest seen cut of the delivered lines.
    ensures greatest { result ≡ delivered_cut_of report.now.lines }
    // The answer is a cut of the book of the report's lines.
    ensures fits { IsInBook report.now.lines result }
{
    let mut greatest = Cut::zero(report.callers());
    for caller in 0..report.callers() {
        raise_by_lines(&mut greatest, report, caller);
    }
    greatest
}

/// The book at the greatest seen cut of the delivered lines: the records that this cut holds, and
/// the calls that their views hold.
pub fn delivered_book(alloc: Global, report: &Report) -> Result<Book, NoMemory>
    ensures { IfOk result (λ book. IsDeliveredBook report.now.lines book) }
{
    report.book(alloc)?.at(alloc, &delivered_cut(report))
}

/// Raises a cut to the seen cuts of a caller's delivered lines.
fn raise_by_lines(greatest: &mut Cut, report: &Report, caller: u32)
    requires report { IsReport report.now }
    requires caller { caller < length report.now.lines }
    requires wide { length greatest.old ≡ length report.now.lines }
    ensures wide { length greatest.new ≡ length report.now.lines }
    ensures counts { (i : ℕ) → slice_index greatest.new i ≡ max (slice_index greatest.old i)
        (greatest_count (delivered_cuts_in (lines_at report.now.lines caller)) i) }
{
    for number in 0..report.lines(caller) {
        let line = report.line(Call { caller, number });
        if let LineEnd::Delivered(_, seen) = line.end {
            greatest.raise(&seen);
        }
    }
}
