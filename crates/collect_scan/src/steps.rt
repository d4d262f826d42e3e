ghost use Rattle.std.specs.Prelude.{◌≡◌, ℕ, ◌+◌, List, [], ◌∷◌, ◌++◌};
ghost use Rattle.world_core.specs.Local.{Local};
ghost use Rattle.world_core.specs.Event.{Opening};
ghost use Rattle.row_table.specs.Callers.{IsCallerOf, IsStill, local_with, stance_of};
ghost use Rattle.collect_scan.specs.Scanned.{local_in_scan, local_stood};
ghost use Rattle.collect_scan.specs.Turns.{MayScan, MayGoOn, opening_at, stance_scanned};

use row_table::{Caller, Rows, Steps};
use std::sync::ledger::Ledger;
use world_core::{Program, Region, Want};

// Begins the caller's scan of a region, by its first look, which is at caller 0.
pub fn set_out<P: Program, L: Ledger>(
    rows: &Rows<P>,
    caller: &mut Caller<P>,
    region: Region,
    steps: &mut Steps<L>,
)
    requires caller { IsCallerOf P.meaning rows.now caller.old }
    requires begins { MayScan P.meaning rows.now caller.old region }
    ensures caller { IsStill P.meaning rows.now caller.old caller.new }
    ensures stance { stance_of caller.new ≡ stance_scanned (stance_of caller.old) region }
    ensures taken { (x : ℕ) × (local_with caller.new ≡ local_stood rows.now.callers
        (local_with caller.old) region (opening_at caller.old region) (x ∷ [])) }
    ensures tick { steps.new ≡ steps.old + 1 }
{
    caller.begin_scan(region);
    rows.look(caller, region, 0, steps);
}

// Makes one further step of the caller's scan under way: the look or the peek that the scan needs
// next.
pub fn go_on<P: Program, L: Ledger>(
    rows: &Rows<P>,
    caller: &mut Caller<P>,
    region: Region,
    steps: &mut Steps<L>,
)
    requires caller { IsCallerOf P.meaning rows.now caller.old }
    requires goes { MayGoOn rows.now caller.old region }
    ensures caller { IsStill P.meaning rows.now caller.old caller.new }
    ensures stance { stance_of caller.new ≡ stance_of caller.old }
    ensures taken { (before : Local) (opening : Opening) (taken : List ℕ)
        → local_with caller.old ≡ local_in_scan rows.now.callers before region opening taken
        → (x : ℕ) × (local_with caller.new
        ≡ local_stood rows.now.callers before region opening (taken ++ x ∷ [])) }
    ensures tick { steps.new ≡ steps.old + 1 }
{
    match caller.wants() {
        Some(Want::Look(j)) => {
            rows.look(caller, region, j, steps);
        }
        Some(Want::Peek(j, row, entry)) => {
            let place = rows.embedded_place(region, entry);
            rows.peek(caller, region, j, row, place, steps);
        }
        _ => unreachable!(),
    }
}
