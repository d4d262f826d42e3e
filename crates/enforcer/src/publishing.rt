ghost use Rattle.std.specs.Prelude.{◌≡◌, ℕ, ◌+◌, ◌≤◌, length};
ghost use Rattle.row_table.specs.Callers.{local_with, IsCallerOf, IsStill};
ghost use Rattle.collect_scan.specs.Scanned.{most_words};
ghost use Rattle.report_lines.specs.Phases.{progress_of};
ghost use Rattle.report_lines.specs.Progress.{after_publishing};
ghost use Rattle.drv_wrapper.specs.Growth.{Grows};
ghost use Rattle.drv_wrapper.specs.States.{caller_viewed, record_viewed};
ghost use Rattle.enforcer.specs.Events.{IsPublication};
ghost use Rattle.enforcer.specs.States.{caller_published, record_published};

use crate::published_call::Published;
use collect_scan::scan;
use drv_wrapper::Viewed;
use row_table::{Rows, Steps, publish_row};
use std::sync::ledger::Ledger;
use world_core::{Program, Region};

/// Publishes the record of a call: scans M, stages the reply and the view with the cut of this scan
/// in the caller's row of M, and raises the caller's count in M. The scan begins after the view was
/// taken. Each count in M that the scanning caller had looked at before the scan is at most the
/// cut's count for the caller that was looked at. Each scan of M that begins after the publication
/// gives a cut that holds the record.
///
/// The counter of steps rises by at most the most words that one scan may take, and no memory is
/// taken.
pub fn publish<P: Program, L: Ledger>(
    viewed: Viewed<P>,
    rows: &Rows<P>,
    steps: &mut Steps<L>,
) -> Published<P>
    // The caller of the viewed call belongs to these rows.
    requires rows { IsCallerOf P.meaning rows.now (caller_viewed viewed) }
    // The view has one count for each caller.
    requires wide { length (record_viewed viewed).view ≡ rows.now.callers }
    // The caller still belongs to these rows, with the same number.
    ensures caller { IsStill P.meaning rows.now (caller_viewed viewed) (caller_published result) }
    // The published call has the record of the viewed one.
    ensures record { record_published result ≡ record_viewed viewed }
    // The caller's local is the one that it had before, changed by a scan of M, the publication of
    // the row that was staged, and no other event but stages. The row embeds the cut of that scan.
    // This cut is the last one that the caller was given. Each count in M that the scanning caller
    // had looked at before the scan is at most the cut's count for the caller that was looked at.
    ensures published { IsPublication rows.now.callers (local_with (caller_viewed viewed))
        (local_with (caller_published result)) }
    // The caller's progress is the one before the publication, with one published record more.
    ensures progress { progress_of (local_with (caller_published result))
        ≡ after_publishing (progress_of (local_with (caller_viewed viewed))) }
    // The caller's local has each look, each peek and each given cut that it had before the
    // publication.
    ensures grows { Grows (local_with (caller_viewed viewed))
        (local_with (caller_published result)) }
    // The counter of steps has not fallen, and has risen by at most the most words that one scan
    // may take.
    ensures ticks { (steps.old ≤ steps.new)
        × (steps.new ≤ steps.old + most_words rows.now.callers) }
{
    let record = viewed.record();
    let mut caller = viewed.into_caller();
    let cut = scan(rows, &mut caller, Region::M, steps);
    publish_row(rows, &mut caller, record.reply, &record.view, &cut);
    Published { caller, record }
}
