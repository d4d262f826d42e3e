ghost use Rattle.std.specs.Prelude.{◌≡◌, ℕ, ◌+◌, ◌<◌, ◌≤◌, [], ◌∷◌, ◌++◌, length};
ghost use Rattle.world_core.specs.Local.{IsIdle};
ghost use Rattle.row_table.specs.Callers.{who_of, local_with, stance_of, IsCallerOf, IsStill};
ghost use Rattle.report_lines.specs.Phases.{progress_of};
ghost use Rattle.report_lines.specs.Progress.{after_announcing, after_viewing};
ghost use Rattle.collect_scan.specs.Scanned.{most_words};
ghost use Rattle.drv_wrapper.specs.Stands.{ready};
ghost use Rattle.drv_wrapper.specs.States.{caller_viewed, op_viewed, viewed_local, record_viewed};
ghost use Rattle.drv_wrapper.specs.Growth.{Grows};
ghost use Rattle.drv_wrapper.specs.Telling.{told_after};

use crate::announcing::announce;
use crate::asking::ask;
use crate::black_box::BlackBox;
use crate::viewed::Viewed;
use crate::viewing::view;
use book_base::OpWord;
use row_table::{Caller, Rows, Steps};
use std::sync::ledger::Ledger;
use world_core::{Outside, Program};

/// Announces a call, asks the object once, and takes the view, as `announce`, `ask` and `view` do.
/// The counter of steps rises by at most the steps of two scans.
pub fn apply<B: BlackBox, L: Ledger>(
    caller: Caller,
    rows: &Rows,
    op: OpWord,
    object: &B,
    pass: &mut B::Pass,
    steps: &mut Steps<L>,
) -> Viewed
    // The caller belongs to this table.
    requires rows { IsCallerOf ⟦<Outside as Program>⟧.meaning rows.now caller }
    // The caller is idle.
    requires idle { IsIdle (local_with caller) }
    // The caller has announced fewer calls than the cap.
    requires row { (local_with caller).announced < rows.now.cap }
    // The caller makes calls, means to begin no scan, and keeps no reply.
    requires stands { stance_of caller ≡ ready }
    // The pass is one of this object's.
    requires own { B.is_own object.now pass.old }
    // The pass is this caller's.
    requires pass { B.Pass.caller pass.old ≡ who_of caller }
    // The pass has made fewer calls than it may make.
    requires left { B.Pass.made pass.old < B.Pass.cap pass.old }
    // The caller still belongs to this table, and keeps its number.
    ensures caller { IsStill ⟦<Outside as Program>⟧.meaning rows.now caller (caller_viewed result) }
    // The call has this operation.
    ensures operation { op_viewed result ≡ op }
    // The view has one count for each caller.
    ensures wide { length (record_viewed result).view ≡ rows.now.callers }
    // The caller's calls are those before with this one at the end, which has its reply and view.
    ensures progress { progress_of (viewed_local result) ≡ after_viewing (record_viewed result)
        (after_announcing op (progress_of (local_with caller))) }
    // The call has made no object step.
    ensures steps { (viewed_local result).object_steps
        ≡ (local_with caller).object_steps ++ [] ∷ [] }
    // The caller's local has each look, peek and cut that it had before.
    ensures grows { Grows (local_with caller) (viewed_local result) }
    // The pass is still one of this object's.
    ensures own { B.is_own object.now pass.new }
    // The pass has made one call more.
    ensures made { B.Pass.made pass.new ≡ B.Pass.made pass.old + 1 }
    // The pass keeps its caller and how many calls it may make.
    ensures same { (B.Pass.caller pass.new ≡ B.Pass.caller pass.old)
        × (B.Pass.cap pass.new ≡ B.Pass.cap pass.old) }
    // A pass that tells its calls tells one more, with this operation and the object's reply; one
    // that tells none still tells none.
    ensures told { B.Pass.told pass.new
        ≡ told_after op (record_viewed result).reply (B.Pass.told pass.old) }
    // The counter of steps has risen by at most twice n * (n + 1) + n for n callers.
    ensures ticks { (steps.old ≤ steps.new)
        × (steps.new ≤ steps.old + (most_words rows.now.callers + most_words rows.now.callers)) }
{
    let announced = announce(caller, rows, op, steps);
    let answered = ask(announced, object, pass);
    view(answered, rows, steps)
}
