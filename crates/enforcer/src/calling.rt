ghost use Rattle.std.specs.Prelude.{◌≡◌, ◌+◌, ◌*◌, ◌<◌, ◌≤◌};
ghost use Rattle.world_core.specs.Local.{IsIdle};
ghost use Rattle.report_lines.specs.Phases.{progress_of};
ghost use Rattle.row_table.specs.Callers.{who_of, local_with, stance_of, IsCallerOf, IsStill};
ghost use Rattle.collect_scan.specs.Scanned.{most_words};
ghost use Rattle.drv_wrapper.specs.Growth.{Grows};
ghost use Rattle.drv_wrapper.specs.Stands.{ready};
ghost use Rattle.drv_wrapper.specs.Telling.{told_after};
ghost use Rattle.enforcer.specs.Judged.{AreWide};
ghost use Rattle.enforcer.specs.States.{caller_seen, cut_seen, record_seen};
ghost use Rattle.enforcer.specs.Enforced.{after_call};

use crate::publishing::publish;
use crate::seeing::seen;
use crate::seen_call::Seen;
use book_base::OpWord;
use drv_wrapper::{BlackBox, apply};
use row_table::{Caller, Rows, Steps};
use std::sync::ledger::Ledger;
use world_core::{Outside, Program};

/// Makes one call up to its seen cut: the call is announced, the object is asked, the view is
/// taken, and the record is published; then a cut of the published records is seen. The counter of
/// steps rises by at most the most words that four scans may take.
pub fn call_and_see<B: BlackBox, L: Ledger>(
    caller: Caller,
    rows: &Rows,
    op: OpWord,
    object: &B,
    pass: &mut B::Pass,
    steps: &mut Steps<L>,
) -> Seen
    // The caller belongs to these rows.
    requires rows { IsCallerOf ⟦<Outside as Program>⟧.meaning rows.now caller }
    // The caller is idle.
    requires idle { IsIdle (local_with caller) }
    // The caller has announced fewer calls than the cap.
    requires row { (local_with caller).announced < rows.now.cap }
    // The caller is live, means to begin no scan, and keeps no reply.
    requires stance { stance_of caller ≡ ready }
    // The pass belongs to this object.
    requires own { B.is_own object.now pass.old }
    // The pass is this caller's.
    requires pass { B.Pass.caller pass.old ≡ who_of caller }
    // The pass has made fewer calls than it may make.
    requires left { B.Pass.made pass.old < B.Pass.cap pass.old }
    // The caller still belongs to these rows, with the same number.
    ensures caller { IsStill ⟦<Outside as Program>⟧.meaning rows.now caller (caller_seen result) }
    // The caller has made one call more than before, with this operation and the record and the cut
    // of the seen call, and has published one record more.
    ensures progress { progress_of (local_with (caller_seen result)) ≡ after_call op
        (record_seen result) (cut_seen result) (progress_of (local_with caller)) }
    // The view and the cut of the seen call have one count for each caller.
    ensures wide { AreWide rows.now.callers (record_seen result).view (cut_seen result) }
    // The caller's local has each look, each peek and each given cut that it had before the call.
    ensures grows { Grows (local_with caller) (local_with (caller_seen result)) }
    // The pass still belongs to this object.
    ensures own { B.is_own object.now pass.new }
    // The pass has made one call more than before.
    ensures made { B.Pass.made pass.new ≡ B.Pass.made pass.old + 1 }
    // The pass keeps its caller and the number of calls that it may make.
    ensures same { (B.Pass.caller pass.new ≡ B.Pass.caller pass.old)
        × (B.Pass.cap pass.new ≡ B.Pass.cap pass.old) }
    // Where the pass has a told list, the list has one more entry at its end: this operation with
    // the reply of the call. A pass without a told list still has none.
    ensures told { B.Pass.told pass.new
        ≡ told_after op (record_seen result).reply (B.Pass.told pass.old) }
    // The counter of steps has not fallen, and has risen by at most the words that four scans may
    // take.
    ensures ticks { (steps.old ≤ steps.new)
        × (steps.new ≤ steps.old + 4 * most_words rows.now.callers) }
{
    let viewed = apply(caller, rows, op, object, pass, steps);
    let published = publish(viewed, rows, steps);
    seen(published, rows, steps)
}
