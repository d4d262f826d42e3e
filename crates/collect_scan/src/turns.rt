ghost use Rattle.std.specs.Prelude.{◌≡◌, ℕ, ◌+◌, true, false, List, [], None};
ghost use Rattle.world_core.specs.Local.{Local};
ghost use Rattle.world_core.specs.Event.{Opening};
ghost use Rattle.row_table.specs.Callers.{IsCallerOf, IsStill, who_of, local_with, stance_of};
ghost use Rattle.collect_scan.specs.Scanned.{local_in_scan};

use crate::steps::{go_on, set_out};
use book_base::Cut;
use row_table::{Caller, Rows, Steps};
use std::marker::PhantomData;
use std::sync::ledger::Ledger;
use world_core::{Outside, Program, Region};

/// A scan of a region by one caller, which makes one step a turn; other callers, and other work of
/// the thread, may come between two turns.
#[derive(Drop)]
pub struct Scan<P = Outside> {
    who: u32,
    region: Region,
    begun: bool,
    of: PhantomData<P>,
}

impl<P: Program> Scan<P> {
    ghost use Rattle.collect_scan.specs.Turns.{scanner_of, region_of, has_begun, opening_at, stance_turned, HasTurned, MayTurn};

    /// A scan of a region by this caller of these rows, before its first turn. It makes no step
    /// yet.
    pub fn begin(_rows: &Rows<P>, caller: &Caller<P>, region: Region) -> Scan<P>
        // The scan is of this caller.
        ensures scanner { scanner_of result ≡ who_of caller.now }
        // The scan is of this region.
        ensures region { region_of result ≡ region }
        // The scan hasn't made its first turn.
        ensures unbegun { has_begun result ≡ false }
    {
        Scan {
            who: caller.who(),
            region,
            begun: false,
            of: PhantomData,
        }
    }

    /// Makes the one step that the scan needs next, and answers the cut where the scan is done with
    /// that step, and else `None`. The first turn begins the scan. Between two turns the caller
    /// makes no other step, and after the turn that answers the cut there is no further one. A scan
    /// of `n` callers has at most `n * (n + 1) + n` turns.
    pub fn turn<L: Ledger>(
        &mut self,
        rows: &Rows<P>,
        caller: &mut Caller<P>,
        steps: &mut Steps<L>,
    ) -> Option<Cut>
        // The caller belongs to this table.
        requires caller { IsCallerOf P.meaning rows.now caller.old }
        // The scan is this caller's, and the caller may make its next turn.
        requires turn { MayTurn P.meaning rows.now caller.old self.old }
        // The caller still belongs to this table, and keeps its number.
        ensures caller { IsStill P.meaning rows.now caller.old caller.new }
        // After the first turn the caller means to begin no scan any more, and where the region is
        // N it has handed over the reply that it kept, if there was one; a later turn keeps the
        // caller's stance.
        ensures stance { stance_of caller.new
            ≡ stance_turned (has_begun self.old) (stance_of caller.old) (region_of self.old) }
        // The scan keeps its caller and its region, and has made its first turn.
        ensures scan { (scanner_of self.new ≡ scanner_of self.old)
            × (region_of self.new ≡ region_of self.old) × (has_begun self.new ≡ true) }
        // After a first turn that answers no cut, the caller's local is the one before the turn
        // with the scan begun, under way, and with one word taken; after a first turn that answers
        // a cut, it is the one before the turn, changed by one whole scan that ended with that cut.
        ensures first { has_begun self.old ≡ false → HasTurned rows.now.callers (region_of self.old)
            (opening_at caller.old (region_of self.old)) [] result (local_with caller.old)
            (local_with caller.new) }
        // After a later turn that answers no cut, the scan is under way with one word more than
        // before the turn; after a later turn that answers a cut, the caller's local is the one on
        // which the scan began, changed by one whole scan that ended with that cut.
        ensures later { (before : Local) (opening : Opening) (taken : List ℕ)
            → has_begun self.old ≡ true → local_with caller.old
            ≡ local_in_scan rows.now.callers before (region_of self.old) opening taken
            → HasTurned rows.now.callers (region_of self.old) opening taken result before
            (local_with caller.new) }
        // Where the turn answers no cut, the caller may make the scan's next turn.
        ensures goes_on { result ≡ None → MayTurn P.meaning rows.now caller.new self.new }
        // The counter of steps has risen by 1.
        ensures tick { steps.new ≡ steps.old + 1 }
    {
        if self.begun {
            go_on(rows, caller, self.region, steps);
        } else {
            set_out(rows, caller, self.region, steps);
            self.begun = true;
        }
        caller.given()
    }
}
