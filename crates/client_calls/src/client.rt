ghost use Rattle.std.specs.Prelude.{◌≡◌, ◌+◌, ◌*◌, ◌%◌, ◌<◌, ◌≤◌, false, length, vec_capacity};
ghost use Rattle.row_gather.specs.Gathered.{IsGatheredBy};
ghost use Rattle.client_calls.specs.Stands.{local_at_stand};

use crate::asks::Asks;
use crate::ending::Ending;
use crate::finished::Finished;
use crate::shared::Shared;
use crate::sheet::Sheet;
use crate::stand::CallerState;
use drv_wrapper::{announce, view};
use enforcer::publish;
use report_lines::Line;
use row_table::{Rows, Steps};
use std::sync::ledger::Ledger;
use world_core::Program;

/// A caller at work: its state, the pass by which it asks, and its sheet, which keeps the book that
/// this caller gathered last.
pub struct Client<'a, P, T, E> {
    pub stand: CallerState<P>,
    pub pass: T,
    pub sheet: Sheet<'a, E>,
    pub ghost kept: { ∥ IsGatheredBy (local_at_stand stand) sheet.gathered ∥₁ },
}

impl<'a, P: Program, T, E: Ending> Client<'a, P, T, E> {
    ghost use Rattle.report_lines.specs.Phases.{HasMade};
    ghost use Rattle.report_lines.specs.Lines.{any_error};
    ghost use Rattle.row_table.specs.Benches.{fresh_stance};
    ghost use Rattle.row_table.specs.Callers.{shape_of, local_with, stance_of};
    ghost use Rattle.drv_wrapper.specs.Stands.{IsSame};
    ghost use Rattle.client_calls.specs.Stands.{caller_at, GoesOnFrom};
    ghost use Rattle.client_calls.specs.Keeping.{IsSameSheet};
    ghost use Rattle.client_calls.specs.Finishing.{is_unjudged, KeepsAsked, IsLeftStanding, Leaves};
    ghost use Rattle.client_calls.specs.Clients.{phases_by, HasSpent, IsUnderWay, IsAtWork, Releases};

    /// Makes the next phase of the caller: it announces its next operation, asks, takes the view,
    /// publishes, or ends the call.
    ///
    /// The caller isn't halted, and has a phase left: five for each operation.
    pub fn advance<A: Asks<Program = P, Pass = T>, L: Ledger>(
        self,
        shared: &Shared<A, P>,
        steps: &mut Steps<L>,
    ) -> Client<'a, P, T, E>
        // The callers of the shared rows may ask the object.
        requires serves { A.serves shared.now.asks.now shared.now.rows.now }
        // The client is at work on the shared rows: its lines, its local and its pass are those of
        // the phases that it has made, and it has capacity for all its calls (`IsAtWork`).
        requires work { IsAtWork P.meaning shared.now.rows.now E.says E.object
            (A.fits shared.now.asks.now) A.count self }
        // The client's caller isn't halted.
        requires goes { GoesOnFrom self.stand }
        // The client has made fewer phases than five for each operation.
        requires left { phases_by self < 5 * length self.sheet.operations.now }
        // The client has made one phase more.
        ensures phase { phases_by result ≡ phases_by self.entry + 1 }
        // The client is still at work.
        ensures work { IsAtWork P.meaning shared.now.rows.now E.says E.object
            (A.fits shared.now.asks.now) A.count result }
        // The client has the same caller, operations and sequential object, and at least the
        // capacity for lines that it had.
        ensures same { IsSameSheet E.object self.entry.sheet result.sheet }
    {
        let Client {
            stand,
            mut pass,
            mut sheet,
        } = self;
        let rows = shared.rows;
        let op = sheet.next_op();
        let stand = match stand {
            CallerState::Idle(caller) => CallerState::Announced(announce(caller, rows, op, steps)),
            CallerState::Announced(announced) => CallerState::Answered(
                shared.asks.ask(announced, &mut pass),
            ),
            CallerState::Answered(answered) => CallerState::Viewed(view(answered, rows, steps)),
            CallerState::Viewed(viewed) => CallerState::Published(publish(viewed, rows, steps)),
            CallerState::Published(published) => sheet.end_call(rows, published, op, steps),
            stand => stand,
        };
        Client { stand, pass, sheet }
    }

    /// Makes `count` further phases, or fewer where the caller halts within them.
    ///
    /// Each operation has five phases. Of all of them at least `count` have to be left.
    pub fn run<A: Asks<Program = P, Pass = T>, L: Ledger>(
        self,
        shared: &Shared<A, P>,
        count: u64,
        steps: &mut Steps<L>,
    ) -> Client<'a, P, T, E>
        // The callers of the shared rows may ask the object.
        requires serves { A.serves shared.now.asks.now shared.now.rows.now }
        // The client is at work on the shared rows: its lines, its local and its pass are those of
        // the phases that it has made, and it has capacity for all its calls (`IsAtWork`).
        requires work { IsAtWork P.meaning shared.now.rows.now E.says E.object
            (A.fits shared.now.asks.now) A.count self }
        // The client's caller isn't halted.
        requires goes { GoesOnFrom self.stand }
        // The client has at least `count` phases left, of five for each of its operations.
        requires left { phases_by self + count ≤ 5 * length self.sheet.operations.now }
        // The client has made `count` further phases, or its caller was halted within them.
        ensures spent { HasSpent (phases_by self.entry + count) result }
        // The client is still at work.
        ensures work { IsAtWork P.meaning shared.now.rows.now E.says E.object
            (A.fits shared.now.asks.now) A.count result }
        // The client has the same caller, operations and sequential object, and at least the
        // capacity for lines that it had.
        ensures same { IsSameSheet E.object self.entry.sheet result.sheet }
    {
        let mut client = self;
        for _i in 0..count {
            if !client.stand.goes_on() {
                return client;
            }
            shared.asks.pause();
            client = client.advance(shared, steps);
        }
        client
    }

    /// Judges a call that was left unjudged once more, by the book at its own seen cut. Where
    /// memory is lacking again, it stays unjudged. A client in any other state stays as it is.
    ///
    /// It makes no phase: all five of the call are made.
    pub fn judge_again<A: Asks<Program = P, Pass = T>, L: Ledger>(
        self,
        shared: &Shared<A, P>,
        steps: &mut Steps<L>,
    ) -> Client<'a, P, T, E>
        // The client is at work on the shared rows: its lines, its local and its pass are those of
        // the phases that it has made, and it has capacity for all its calls (`IsAtWork`).
        requires work { IsAtWork P.meaning shared.now.rows.now E.says E.object
            (A.fits shared.now.asks.now) A.count self }
        // The client has made no more phases than five for each operation.
        requires within { phases_by self ≤ 5 * length self.sheet.operations.now }
        // The client has made as many phases as before.
        ensures phases { phases_by result ≡ phases_by self.entry }
        // The client is still at work. A call that was judged has its line, with the verdict at its
        // seen cut.
        ensures work { IsAtWork P.meaning shared.now.rows.now E.says E.object
            (A.fits shared.now.asks.now) A.count result }
        // The client has the same caller, operations and sequential object, and at least the
        // capacity for lines that it had.
        ensures same { IsSameSheet E.object self.entry.sheet result.sheet }
    {
        let Client {
            stand,
            pass,
            mut sheet,
        } = self;
        let stand = match stand {
            CallerState::Unjudged(seen) => {
                let op = sheet.next_op();
                sheet.end_seen(shared.rows, seen, op, steps)
            }
            stand => stand,
        };
        Client { stand, pass, sheet }
    }

    /// Drops the book and the order that the client keeps, and with them the memory that they take.
    pub fn release(self) -> Client<'a, P, T, E>
        ensures { Releases self.entry result }
    {
        let Client {
            stand,
            pass,
            mut sheet,
        } = self;
        sheet.gathered = None;
        sheet.standing = None;
        Client { stand, pass, sheet }
    }

    /// Ends the client's work. A call under way gets the last line, which is pending, or unchecked
    /// where the call has its record, and its caller is halted.
    ///
    /// A call that was left unjudged for want of memory gets no line.
    pub fn finish(self, _rows: &Rows<P>) -> Finished<P, T, E>
        // The client's caller belongs to `_rows`, and its lines and its local are exactly those of
        // the phases that it has made.
        requires course { IsUnderWay P.meaning _rows.now
            (E.says (E.object self.sheet.ending)) self }
        // The list of lines has capacity for a line for each operation.
        requires room { length self.sheet.operations.now ≤ vec_capacity self.sheet.lines }
        // The finished client's caller has the number and the local of this client's caller, and
        // belongs to the same rows.
        ensures caller { IsSame (caller_at self.entry.stand) result.caller }
        // The finished client has the pass of this client.
        ensures pass { result.pass ≡ self.entry.pass }
        // The finished client has the ending of this client.
        ensures ending { result.ending ≡ self.entry.sheet.ending }
        // `wants_memory` is true exactly where the last call was left unjudged.
        ensures wants_memory { result.wants_memory ≡ is_unjudged self.entry.stand }
        // The finished client's caller has made exactly the phases that this client has made.
        ensures made { HasMade self.entry.sheet.operations.now (phases_by self.entry)
            (local_with result.caller) }
        // A call that was announced and not asked has no object step. For one that was asked and
        // has no view, the program allows the caller some reply.
        ensures asked { KeepsAsked (shape_of P.meaning _rows.now).program self.entry.sheet.who
            (phases_by self.entry) (local_with result.caller) }
        // A caller that is left within a call is halted, and one that is live is free for its next
        // call.
        ensures standing { IsLeftStanding (phases_by self.entry) (local_with result.caller)
            (stance_of result.caller) }
        // A caller that is left between two calls has the stance of the start, unless one of its
        // lines is an error or its last call was left unjudged.
        ensures free { is_unjudged self.entry.stand ≡ false → any_error result.lines.items ≡ false
            → phases_by self.entry % 5 ≡ 0 → stance_of result.caller ≡ fresh_stance }
        // Unless the last call was left unjudged, there is a line for each call of the caller, as
        // the ending says. For each allotment that the client has spent, this allotment and the
        // lines determine how many phases the client has made.
        ensures leaves { Leaves (E.says (E.object result.ending)) _rows.now.callers
            self.entry.sheet.operations.now self.entry.stand self.entry.sheet.lines.items
            (local_with result.caller) result.lines.items }
    {
        let Client {
            stand,
            pass,
            mut sheet,
        } = self;
        let wants_memory = stand.is_unjudged();
        let (caller, end) = stand.stop();
        if let Some(end) = end {
            let op = sheet.next_op();
            sheet.lines.push(Line { op, end }).unwrap();
        }
        let Sheet {
            who: _,
            operations: _,
            lines,
            ending,
            gathered: _,
            standing: _,
        } = sheet;
        Finished {
            caller,
            pass,
            lines,
            ending,
            wants_memory,
        }
    }
}
