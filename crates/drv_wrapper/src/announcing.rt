ghost use Rattle.std.specs.Prelude.{◌≡◌, ℕ, ◌+◌, ◌<◌, ◌≤◌};
ghost use Rattle.world_core.specs.Local.{IsIdle};
ghost use Rattle.row_table.specs.Callers.{who_of, local_with, stance_of, IsCallerOf, IsStill};
ghost use Rattle.report_lines.specs.Phases.{progress_of};
ghost use Rattle.report_lines.specs.Progress.{after_announcing};
ghost use Rattle.collect_scan.specs.Scanned.{most_words};
ghost use Rattle.drv_wrapper.specs.Stands.{ready};
ghost use Rattle.drv_wrapper.specs.States.{caller_announced, op_announced, announced_local};
ghost use Rattle.drv_wrapper.specs.Events.{HasAnnounced};
ghost use Rattle.drv_wrapper.specs.Growth.{Grows};

use crate::announced::Announced;
use book_base::OpWord;
use collect_scan::scan;
use row_table::{Caller, Rows, Steps, announce_row};
use std::sync::ledger::Ledger;
use world_core::{Program, Region};

/// Announces a call of a caller: scans N, stages the operation with the cut of this scan in the
/// caller's row of N, and raises the caller's count there. Each view whose scan begins after that
/// holds the call.
///
/// The caller is live and idle, and has a call left. The counter of steps rises by at most the
/// steps of one scan.
pub fn announce<P: Program, L: Ledger>(
    mut caller: Caller<P>,
    rows: &Rows<P>,
    op: OpWord,
    steps: &mut Steps<L>,
) -> Announced<P>
    // The caller belongs to this table.
    requires rows { IsCallerOf P.meaning rows.now caller }
    // The caller is idle.
    requires idle { IsIdle (local_with caller) }
    // The caller has announced fewer calls than the cap.
    requires left { (local_with caller).announced < rows.now.cap }
    // The caller makes calls, means to begin no scan, and keeps no reply.
    requires stands { stance_of caller ≡ ready }
    // The caller still belongs to this table, and keeps its number.
    ensures caller { IsStill P.meaning rows.now caller (caller_announced result) }
    // The announced call has this operation.
    ensures operation { op_announced result ≡ op }
    // The caller's local is the one before, changed by a scan of N, then by the staging and the
    // announcement of a row with this operation, and by no other event.
    ensures announced { HasAnnounced rows.now.callers op (local_with caller)
        (announced_local result) }
    // The caller's calls are those before with the announced one at the end, and its published
    // records are those before.
    ensures progress { progress_of (announced_local result)
        ≡ after_announcing op (progress_of (local_with caller)) }
    // The caller's local has each look, peek and cut that it had before.
    ensures grows { Grows (local_with caller) (announced_local result) }
    // The counter of steps has risen by at most n * (n + 1) + n for n callers.
    ensures ticks { (steps.old ≤ steps.new)
        × (steps.new ≤ steps.old + most_words rows.now.callers) }
{
    let cut = scan(rows, &mut caller, Region::N, steps);
    announce_row(rows, &mut caller, op, &cut);
    Announced { caller, op }
}
