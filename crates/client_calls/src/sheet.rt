ghost use Rattle.std.specs.Prelude.{◌≡◌, ◌<◌, ◌≤◌, length, slice_index, vec_len, vec_capacity};
ghost use Rattle.row_table.specs.Callers.{local_with, IsCallerOf};
ghost use Rattle.enforcer.specs.States.{caller_published, caller_seen};
ghost use Rattle.client_calls.specs.Endings.{Ends, EndsSeen, IsNoted};
ghost use Rattle.client_calls.specs.Stands.{local_at_stand};

use crate::ended::Ended;
use crate::ending::Ending;
use crate::stand::CallerState;
use book_base::OpWord;
use enforcer::{Gathered, Published, Seen, seen};
use frontier_check::KeptOrder;
use report_lines::Line;
use row_table::{Rows, Steps};
use std::sync::ledger::Ledger;
use world_core::Program;

/// What a client works with: its caller's number and operations, its lines, one for each call that
/// has ended, and the ending by which its calls end. The list of lines has capacity for one for
/// each operation.
///
/// `gathered` is the book that the caller gathered last, from which its next one grows, and
/// `standing` is the kept order that stands in this book. Both are `None` before the first judged
/// call, after an error, and where memory was lacking. They only save time: no clause says that
/// they are kept.
pub struct Sheet<'a, E> {
    pub who: u32,
    pub operations: &'a [OpWord],
    pub lines: Vec<Line>,
    pub ending: E,
    pub gathered: Option<Gathered>,
    pub standing: Option<KeptOrder>,
}

// Adds the line of an ended call to the lines of its caller, and answers the state of the caller. A
// call that is unjudged for want of memory gets no line.
fn noted<P: Program>(ended: Ended<P>, op: OpWord, lines: &mut Vec<Line>) -> CallerState<P>
    requires { vec_len lines.old < vec_capacity lines.old }
    ensures noted { IsNoted op lines.old.items ended lines.new.items result }
    ensures room { vec_capacity lines.old ≤ vec_capacity lines.new }
{
    match ended {
        Ended::GoesOn(caller, end) => {
            lines.push(Line { op, end }).unwrap();
            CallerState::Idle(caller)
        }
        Ended::Halts(caller, end) => {
            lines.push(Line { op, end }).unwrap();
            CallerState::Halted(caller)
        }
        Ended::WantsMemory(unjudged) => CallerState::Unjudged(unjudged),
    }
}

impl<'a, E> Sheet<'a, E> {
    // The operation of the caller's first call without a line.
    pub(crate) fn next_op(&self) -> OpWord
        requires { vec_len self.now.lines < length self.now.operations.now }
        ensures { result ≡ slice_index self.now.operations.now (length self.now.lines.items) }
    {
        self.operations[self.lines.len()]
    }
}

impl<'a, E: Ending> Sheet<'a, E> {
    ghost use Rattle.client_calls.specs.Keeping.{KeepsFor, IsSameSheet};

    // Sees a cut for a call whose record is published, and ends the call.
    pub(crate) fn end_call<P: Program, L: Ledger>(
        &mut self,
        rows: &Rows<P>,
        published: Published<P>,
        op: OpWord,
        steps: &mut Steps<L>,
    ) -> CallerState<P>
        requires rows { IsCallerOf P.meaning rows.now (caller_published published) }
        requires keeps { KeepsFor E.object (local_with (caller_published published)) self.old }
        requires room { vec_len self.old.lines < vec_capacity self.old.lines }
        ensures ends { Ends P.meaning rows.now (E.says (E.object self.new.ending)) published op
            self.old.lines.items self.new.lines.items result }
        ensures same { IsSameSheet E.object self.old self.new }
        ensures keeps { KeepsFor E.object (local_at_stand result) self.new }
    {
        let seen = seen(published, rows, steps);
        self.end_seen(rows, seen, op, steps)
    }

    // Ends a call whose cut is seen: for the first time, or once more where it was left unjudged.
    pub(crate) fn end_seen<P: Program, L: Ledger>(
        &mut self,
        rows: &Rows<P>,
        seen: Seen<P>,
        op: OpWord,
        steps: &mut Steps<L>,
    ) -> CallerState<P>
        requires rows { IsCallerOf P.meaning rows.now (caller_seen seen) }
        requires keeps { KeepsFor E.object (local_with (caller_seen seen)) self.old }
        requires room { vec_len self.old.lines < vec_capacity self.old.lines }
        ensures ends { EndsSeen P.meaning rows.now (E.says (E.object self.new.ending)) seen op
            self.old.lines.items self.new.lines.items result }
        ensures same { IsSameSheet E.object self.old self.new }
        ensures keeps { KeepsFor E.object (local_at_stand result) self.new }
    {
        let ended = self
            .ending
            .end(rows, seen, &mut self.gathered, &mut self.standing, steps);
        noted(ended, op, &mut self.lines)
    }
}
