//! How many lines a report has, by their ends.

ghost use Rattle.std.specs.Prelude.{◌≡◌, count_by};
ghost use Rattle.report_lines.specs.Lines.{is_error};
ghost use Rattle.reports.specs.Tally.{is_delivered, counts_of};

use crate::report::Report;
use report_lines::{Line, LineEnd};

/// How many lines a report has.
#[derive(Clone, Copy, Debug, PartialEq, Eq)]
pub struct Counts {
    /// All lines: one for each call.
    pub calls: u64,
    /// The delivered lines.
    pub delivered: u64,
    /// The error lines.
    pub errors: u64,
}

impl Report {
    /// How many lines the report has, how many of them are delivered, and how many are errors.
    pub fn counts(&self) -> Counts
        ensures { result ≡ counts_of self.now.lines }
    {
        let mut counts = Counts {
            calls: 0,
            delivered: 0,
            errors: 0,
        };
        for caller in 0..self.callers() {
            let lines = self.lines_of(caller);
            counts.calls += lines.len() as u64;
            counts.delivered += delivered_among(lines);
            counts.errors += errors_among(lines);
        }
        counts
    }
}

/// How many of these lines are delivered.
fn delivered_among(lines: &[Line]) -> u64
    ensures { result ≡ count_by is_delivered lines.now }
{
    let delivered = lines
        .iter()
        .filter(|line| matches!(line.end, LineEnd::Delivered(_, _)))
        .count();
    delivered as u64
}

/// How many of these lines are errors.
fn errors_among(lines: &[Line]) -> u64
    ensures { result ≡ count_by is_error lines.now }
{
    let errors = lines
        .iter()
        .filter(|line| matches!(line.end, LineEnd::Error(_, _)))
        .count();
    errors as u64
}
