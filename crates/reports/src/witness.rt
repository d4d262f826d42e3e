//! The witness of a report: the book at the seen cut of the first error line.

ghost use Rattle.std.specs.Prelude.{◌≡◌, false, IfOk, IfSome, IfNone};
ghost use Rattle.report_lines.specs.Lines.{error_in, any_error};
ghost use Rattle.reports.specs.Findings.{IsInBook, IsWitness, HasNoError, HasFirstError, HasFirstErrorIn};

use crate::report::Report;
use book_base::{Book, Cut, NoMemory};
use report_lines::{Line, LineEnd};
use std::alloc::Global;

impl Report {
    /// The book at the seen cut of the first error line, by caller and then by number. There is
    /// none exactly where no line is an error.
    pub fn witness(&self, alloc: Global) -> Result<Option<Book>, NoMemory>
        // A book that is answered is the witness of the report's lines.
        ensures found { IfOk result (λ found. IfSome found (IsWitness self.now.lines)) }
        // None is answered only where no line of the report is an error.
        ensures none { IfOk result (λ found. IfNone found (HasNoError self.now.lines)) }
    {
        let Some(cut) = self.first_error() else {
            return Ok(None);
        };
        let book = self.book(alloc)?;
        Ok(Some(book.at(alloc, &cut)?))
    }

    /// The seen cut of the first error line.
    fn first_error(&self) -> Option<Cut>
        ensures found { IfSome result (HasFirstError self.now.lines) }
        ensures fits { IfSome result (IsInBook self.now.lines) }
        ensures none { IfNone result (HasNoError self.now.lines) }
    {
        for caller in 0..self.callers() {
            if let Some(cut) = first_error_in(self.lines_of(caller)) {
                return Some(cut);
            }
        }
        None
    }
}

/// The seen cut of the first error among a caller's lines.
fn first_error_in(lines: &[Line]) -> Option<Cut>
    ensures found { IfSome result (HasFirstErrorIn lines.now) }
    ensures none { IfNone result (any_error lines.now ≡ false) }
{
    for line in lines {
        if let Some(cut) = error_of(line.end) {
            return Some(cut);
        }
    }
    None
}

/// The seen cut of a line with this end, where the line is an error.
fn error_of(end: LineEnd) -> Option<Cut>
    ensures { result ≡ error_in end }
{
    match end {
        LineEnd::Pending | LineEnd::Unchecked(_) | LineEnd::Delivered(_, _) => None,
        LineEnd::Error(_, cut) => Some(cut),
    }
}
