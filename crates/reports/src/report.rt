ghost use Rattle.std.specs.Prelude.{◌≡◌, ◌<◌, length, Some};
ghost use Rattle.std.specs.List.{list_any};
ghost use Rattle.report_lines.specs.Lines.{lines_at, line_at, any_error};
ghost use Rattle.reports.specs.Findings.{IsReport, HasLine};
ghost use Rattle.reports.specs.ReportLayout.{lines_in, findings_in};

use book_base::Call;
use report_lines::{Line, LineEnd};
use seq_objects::Kind;
use std::marker::Model;

/// The lines of one caller.
#[derive(Debug, Drop)]
pub struct Own {
    pub lines: Vec<Line>,
}

/// What a run found: for each caller a line for each of its calls.
///
/// Clauses see a report as its kind and its lines. A text of version 2 can always say them.
#[derive(Debug, Drop)]
pub struct Report {
    kind: Kind,
    callers: Vec<Own>,
}

impl Model for Report {
    ghost use Rattle.reports.specs.Findings.{Findings, IsReport};

    ghost Value = { Findings };

    ghost use Rattle.reports.specs.ReportLayout.{findings_in};

    ghost view = { λ r. findings_in r.kind r.callers.items };

    ghost invariant = { λ r. IsReport (findings_in r.kind r.callers.items) };
}

impl Report {
    /// The report with these lines of each caller.
    pub fn of_lines(kind: Kind, callers: Vec<Own>) -> Report
        // A text of version 2 can say the kind and the lines.
        requires { IsReport (findings_in kind callers.items) }
        ensures { result ≡ findings_in kind callers.items }
    {
        Report { kind, callers }
    }

    /// The kind of the object.
    pub fn kind(&self) -> Kind
        ensures { result ≡ self.now.kind }
    {
        self.kind
    }

    /// The number of callers.
    pub fn callers(&self) -> u32
        // The answer is how many callers the report has.
        ensures count { result ≡ length self.now.lines }
        // A text of version 2 can say the report.
        ensures report { IsReport self.now }
    {
        self.callers.len() as u32
    }

    /// How many lines a caller has.
    pub fn lines(&self, i: u32) -> u64
        // The report has a caller with this number.
        requires { i < length self.now.lines }
        ensures { result ≡ length (lines_at self.now.lines i) }
    {
        self.callers[i as usize].lines.len() as u64
    }

    /// The line of a call.
    pub fn line(&self, call: Call) -> &Line
        // The report has a line of this call.
        requires { HasLine self.now.lines call }
        ensures { line_at self.now.lines call ≡ Some result.now }
    {
        &self.lines_of(call.caller)[call.number as usize]
    }

    /// The lines of all callers, by caller.
    pub(crate) fn all(&self) -> &[Own]
        ensures lines { lines_in result.now ≡ self.now.lines }
        ensures report { IsReport self.now }
    {
        &self.callers
    }

    /// The lines of a caller, by number.
    pub(crate) fn lines_of(&self, i: u32) -> &[Line]
        requires { i < length self.now.lines }
        ensures { result.now ≡ lines_at self.now.lines i }
    {
        &self.callers[i as usize].lines
    }

    /// Whether one of the report's lines is an error.
    pub fn has_error(&self) -> bool
        ensures { result ≡ list_any any_error self.now.lines }
    {
        for caller in 0..self.callers() {
            if has_error(self.lines_of(caller)) {
                return true;
            }
        }
        false
    }
}

/// Whether one of these lines is an error.
fn has_error(lines: &[Line]) -> bool
    ensures { result ≡ any_error lines.now }
{
    lines
        .iter()
        .any(|line| matches!(line.end, LineEnd::Error(_, _)))
}
