//! A worked report, with a line of each end.

ghost use Rattle.std.specs.Prelude.{◌≡◌, ◌∷◌, [], IfOk};
ghost use Rattle.reports.specs.ReportLayout.{lines_in};
ghost use Rattle.reports.specs.Cases.{worked_lines, worked};

use crate::report::{Own, Report};
use book_base::{Cut, NoMemory, Record};
use report_lines::{Line, LineEnd};
use seq_objects::Kind;
use std::alloc::Global;

/// The worked report of a queue with three callers, whose lines have all four ends.
pub fn worked_report(alloc: Global) -> Result<Report, NoMemory>
    ensures { IfOk result (λ report. report ≡ worked) }
{
    Ok(Report::of_lines(Kind::Queue, worked_callers(alloc)?))
}

/// The cut of three callers with these counts.
fn three(first: u64, second: u64, third: u64) -> Cut
    ensures { result ≡ first ∷ second ∷ third ∷ [] }
{
    let mut cut = Cut::zero(3);
    cut.set(0, first);
    cut.set(1, second);
    cut.set(2, third);
    cut
}

/// A caller with these lines.
fn own(alloc: Global, lines: &[Line]) -> Result<Own, NoMemory>
    ensures { IfOk result (λ own. own.lines.items ≡ lines.now) }
{
    Ok(Own {
        lines: Vec::from_slice(alloc, lines)?,
    })
}

/// The lines of three callers: the first has a delivered and a pending line, the second an error
/// line, and the third an unchecked line.
fn worked_callers(alloc: Global) -> Result<Vec<Own>, NoMemory>
    ensures { IfOk result (λ callers. lines_in callers.items ≡ worked_lines) }
{
    let first = Record {
        reply: 50,
        view: three(1, 0, 0),
    };
    let second = Record {
        reply: 61,
        view: three(1, 1, 0),
    };
    let third = Record {
        reply: 80,
        view: three(1, 1, 1),
    };
    let delivered = Line {
        op: 5,
        end: LineEnd::Delivered(first, three(1, 0, 0)),
    };
    let pending = Line {
        op: 7,
        end: LineEnd::Pending,
    };
    let error = Line {
        op: 6,
        end: LineEnd::Error(second, three(1, 1, 0)),
    };
    let unchecked = Line {
        op: 8,
        end: LineEnd::Unchecked(third),
    };
    let mut callers = Vec::new(alloc);
    callers.push(own(alloc, &[delivered, pending])?)?;
    callers.push(own(alloc, &[error])?)?;
    callers.push(own(alloc, &[unchecked])?)?;
    Ok(callers)
}
