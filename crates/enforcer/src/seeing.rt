ghost use Rattle.std.specs.Prelude.{◌≡◌, ℕ, ◌+◌, ◌≤◌, length};
ghost use Rattle.row_table.specs.Callers.{local_with, IsCallerOf, IsStill};
ghost use Rattle.collect_scan.specs.Scanned.{most_words};
ghost use Rattle.report_lines.specs.Phases.{progress_of};
ghost use Rattle.report_lines.specs.Progress.{after_seeing};
ghost use Rattle.drv_wrapper.specs.Growth.{Grows};
ghost use Rattle.enforcer.specs.Recorded.{HoldsOwn};
ghost use Rattle.enforcer.specs.Events.{IsSight};
ghost use Rattle.enforcer.specs.States.{caller_published, record_published, caller_seen, cut_seen, record_seen};

use crate::published_call::Published;
use crate::seen_call::Seen;
use collect_scan::scan;
use row_table::{Rows, Steps};
use std::sync::ledger::Ledger;
use world_core::{Program, Region};

/// Sees which records are published: makes a scan of M, which begins after the caller's own record
/// was published, so that its cut holds this record and every other one that was published before
/// the scan (Castañeda and Rodríguez 2023).
///
/// The counter of steps rises by at most the most words that one scan may take, and no memory is
/// taken.
pub fn seen<P: Program, L: Ledger>(
    published: Published<P>,
    rows: &Rows<P>,
    steps: &mut Steps<L>,
) -> Seen<P>
    // The caller of the published call belongs to these rows.
    requires rows { IsCallerOf P.meaning rows.now (caller_published published) }
    // The caller still belongs to these rows, with the same number.
    ensures caller { IsStill P.meaning rows.now (caller_published published) (caller_seen result) }
    // The seen call has the record of the published one.
    ensures record { record_seen result ≡ record_published published }
    // The seen cut has one count for each caller.
    ensures wide { length (cut_seen result) ≡ rows.now.callers }
    // The seen cut's count for the caller is the number of records that the caller has published.
    ensures own { HoldsOwn (cut_seen result) (caller_seen result) }
    // The caller's local is the one that it had before, changed by a scan of M that ended with the
    // seen cut, and no other event. This cut is the last one that the caller was given and its last
    // seen cut. Each count in M that the scanning caller had looked at before the scan is at most
    // the cut's count for the caller that was looked at.
    ensures seen { IsSight rows.now.callers (cut_seen result)
        (local_with (caller_published published)) (local_with (caller_seen result)) }
    // The caller's progress is the one before the scan, except that the caller's last call has this
    // seen cut beside its record.
    ensures progress { progress_of (local_with (caller_seen result))
        ≡ after_seeing (cut_seen result) (progress_of (local_with (caller_published published))) }
    // The caller's local has each look, each peek and each given cut that it had before the scan.
    ensures grows { Grows (local_with (caller_published published))
        (local_with (caller_seen result)) }
    // The counter of steps has not fallen, and has risen by at most the most words that one scan
    // may take.
    ensures ticks { (steps.old ≤ steps.new)
        × (steps.new ≤ steps.old + most_words rows.now.callers) }
{
    let Published { mut caller, record } = published;
    let cut = scan(rows, &mut caller, Region::M, steps);
    Seen {
        caller,
        record,
        cut,
    }
}
