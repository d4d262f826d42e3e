//! The lines of all calls.

ghost use Rattle.std.specs.Prelude.{◌≡◌, ◌≢◌, ℕ, ◌≤◌, length, slice_index, IfOk, IfErr, OnOk};
ghost use Rattle.book_base.specs.Book.{calls_of, answers_of};
ghost use Rattle.book_base.specs.declared.TheConstants.{MAX_CALLS};
ghost use Rattle.report_text.specs.Drafts.{IsWide};
ghost use Rattle.reports.specs.Findings.{sizes};
ghost use Rattle.reports.specs.ReportLayout.{lines_in};
ghost use Rattle.report_text.specs.Parts.{LinesAreRead, LinesAreStopped, AreAllRead, AreAllStopped};

use crate::draft::Draft;
use crate::line::read_line;
use book_base::{Book, Call, Cut, ReadFault};
use report_lines::Line;
use reports::Own;
use seq_objects::Kind;
use std::alloc::Global;
use text_fields::Lines;

/// Reads the lines of all callers, in a report about objects of this kind, and leaves what comes
/// after them unread. `calls` has the number of calls of each caller.
pub(crate) fn read_callers(
    alloc: Global,
    lines: &mut Lines,
    kind: Kind,
    calls: &Cut,
) -> Result<Vec<Own>, ReadFault>
    requires { (i : ℕ) → slice_index calls.now i ≤ MAX_CALLS }
    ensures found { IfOk result (λ callers.
        AreAllRead kind calls.now lines.old (lines_in callers.items) lines.new) }
    ensures sizes { IfOk result (λ callers. sizes (lines_in callers.items) ≡ calls.now) }
    ensures refused { IfErr result (AreAllStopped kind calls.now lines.old) }
{
    let mut draft = Draft {
        book: Book::with_calls(alloc, calls)?,
        limits: *calls,
        seen: Cut::zero(calls.n()),
    };
    let mut callers = Vec::new(alloc);
    for i in 0..calls.n() {
        callers.push(Own {
            lines: read_own(alloc, lines, kind, &mut draft, i, calls.get(i))?,
        })?;
    }
    Ok(callers)
}

/// Reads the `count` lines of caller `i`.
fn read_own(
    alloc: Global,
    lines: &mut Lines,
    kind: Kind,
    draft: &mut Draft,
    i: u32,
    count: u64,
) -> Result<Vec<Line>, ReadFault>
    requires calls { count ≤ calls_of draft.old.book i }
    requires unanswered { answers_of draft.old.book i ≡ 0 }
    requires wide { IsWide draft.old }
    ensures found { IfOk result (λ own.
        LinesAreRead kind draft.old i count lines.old own.items draft.new lines.new) }
    ensures count { IfOk result (λ own. length own.items ≡ count) }
    ensures refused { IfErr result (LinesAreStopped kind draft.old i count lines.old) }
    ensures wide { OnOk result (IsWide draft.new) }
    ensures calls { OnOk result ((j : ℕ) → calls_of draft.new.book j ≡ calls_of draft.old.book j) }
    ensures others { OnOk result ((j : ℕ)
        → j ≢ i → answers_of draft.new.book j ≡ answers_of draft.old.book j) }
{
    let mut own = Vec::new(alloc);
    for number in 0..count {
        let call = Call { caller: i, number };
        let Line { op, end } = read_line(lines, kind, draft, call)?;
        own.push(Line { op, end })?;
    }
    Ok(own)
}
