//! The line of one call.

ghost use Rattle.std.specs.Prelude.{◌≡◌, ◌≢◌, ℕ, ◌+◌, ◌≤◌, IfOk, IfErr, OnOk};
ghost use Rattle.book_base.specs.Book.{IsCall, calls_of, answers_of};
ghost use Rattle.book_text.specs.CallLines.{IsUnanswered};
ghost use Rattle.report_text.specs.Drafts.{IsWide};
ghost use Rattle.report_text.specs.Parts.{LineIsRead, LineIsStopped};

use crate::draft::{Draft, misfit};
use crate::fields::read_fields;
use book_base::{Call, ReadFault, TextFault};
use report_lines::Line;
use seq_objects::Kind;
use text_fields::Lines;

/// Reads the line of this call, in a report about objects of this kind, and adds it to the draft of
/// the lines before it.
pub(crate) fn read_line(
    lines: &mut Lines,
    kind: Kind,
    draft: &mut Draft,
    call: Call,
) -> Result<Line, ReadFault>
    requires call { IsCall draft.old.book call }
    requires unanswered { IsUnanswered draft.old.book call }
    requires wide { IsWide draft.old }
    ensures found { IfOk result (λ line.
        LineIsRead kind draft.old call lines.old line draft.new lines.new) }
    ensures refused { IfErr result (LineIsStopped kind draft.old call lines.old) }
    ensures wide { OnOk result (IsWide draft.new) }
    ensures calls { OnOk result ((j : ℕ) → calls_of draft.new.book j ≡ calls_of draft.old.book j) }
    ensures own { OnOk result (answers_of draft.new.book call.caller ≤ call.number + 1) }
    ensures others { OnOk result ((j : ℕ)
        → j ≢ call.caller → answers_of draft.new.book j ≡ answers_of draft.old.book j) }
{
    let number = lines.number();
    let text = lines.line()?;
    let count = draft.book.calls(call.caller);
    let line = read_fields(kind, text, number, call, &mut draft.book)?;
    if let Some(what) = misfit(&draft.limits, &draft.seen, call, count, &line) {
        return Err(ReadFault::Text(TextFault { line: number, what }));
    }
    draft.note(call, &line);
    Ok(line)
}
