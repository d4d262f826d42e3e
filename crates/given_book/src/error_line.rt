ghost use Rattle.std.specs.Prelude.{◌≡◌, ℕ, ◌<◌, List, length, Some, None, IsTrue, IfOk, IfSome, IfNone};
ghost use Rattle.book_base.specs.declared.call.Call.{Call};
ghost use Rattle.report_lines.specs.Lines.{error_at, is_error};
ghost use Rattle.reports.specs.Findings.{IsFirstError};
ghost use Rattle.given_book.specs.FirstError.{IsFirstErrorGiven};

use crate::part::report_part;
use book_base::{Call, NoMemory, ReadFault};
use report_lines::{Line, LineEnd};
use report_text::read_report;
use reports::Report;
use std::alloc::Global;

/// The call of the first error line, by caller and then by number, of the report that an input
/// begins with; the witness after a run's report is the book at the seen cut of this line. `None`
/// where the input doesn't begin with the text of a report, or where its report has no error.
pub fn first_error(alloc: Global, bytes: &[u8]) -> Result<Option<Call>, NoMemory>
    // The call is that of the first error line, by caller and then by number, of the report that
    // the input begins with.
    ensures found { IfOk result (λ found. IfSome found (IsFirstErrorGiven bytes.now)) }
    // Without a call the input begins with no report's text, or with that of a report without an
    // error.
    ensures none { IfOk result (λ found.
        IfNone found ((call : Call) → ¬ (IsFirstErrorGiven bytes.now call))) }
{
    match read_report(alloc, report_part(bytes)) {
        Ok(report) => Ok(first_error_of(&report)),
        Err(ReadFault::Text(_)) => Ok(None),
        Err(ReadFault::NoMemory) => Err(NoMemory),
    }
}

// The call of the first error line of a report.
fn first_error_of(report: &Report) -> Option<Call>
    ensures found { IfSome result (λ call.
        (cut : List ℕ) × IsFirstError report.now.lines call cut) }
    ensures none { IfNone result ((call : Call) → error_at report.now.lines call ≡ None) }
{
    for caller in 0..report.callers() {
        match first_error_in(report, caller) {
            Some(number) => return Some(Call { caller, number }),
            None => {}
        }
    }
    None
}

// The number of the first error line of a caller.
fn first_error_in(report: &Report, caller: u32) -> Option<u64>
    requires { caller < length report.now.lines }
    ensures found { IfSome result (λ number. (cut : List ℕ)
        × (error_at report.now.lines (record { caller = caller; number = number }) ≡ Some cut)) }
    ensures first { IfSome result (λ number. (k : ℕ) → k < number
        → error_at report.now.lines (record { caller = caller; number = k }) ≡ None) }
    ensures none { IfNone result ((k : ℕ)
        → error_at report.now.lines (record { caller = caller; number = k }) ≡ None) }
{
    for number in 0..report.lines(caller) {
        if is_error(report.line(Call { caller, number })) {
            return Some(number);
        }
    }
    None
}

// Whether a line is an error.
fn is_error(line: &Line) -> bool
    ensures { result ≡ is_error line.now }
{
    match line.end {
        LineEnd::Pending => false,
        LineEnd::Unchecked(_) => false,
        LineEnd::Delivered(_, _) => false,
        LineEnd::Error(_, _) => true,
    }
}
