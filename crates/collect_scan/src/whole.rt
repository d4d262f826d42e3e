ghost use Rattle.std.specs.Prelude.{◌≡◌, ◌+◌, ◌≤◌, length};
ghost use Rattle.row_table.specs.Callers.{IsCallerOf, IsStill, local_with, stance_of};
ghost use Rattle.collect_scan.specs.Scanned.{HasScanned, HasTicked, most_words};
ghost use Rattle.collect_scan.specs.Given.{HoldsLooks};
ghost use Rattle.collect_scan.specs.Turns.{MayScan, opening_at, stance_scanned};

use crate::steps::{go_on, set_out};
use book_base::Cut;
use row_table::{Caller, Rows, Steps};
use std::sync::ledger::Ledger;
use world_core::{Program, Region};

/// Scans a region, and answers the cut: the counts that the region had at one moment during the
/// scan. Its entries are at least the counts of the region that the caller had looked at before the
/// scan.
///
/// Two equal collects in a row end the scan. Where a caller has moved twice since the first
/// collect, the scan ends with the cut that this caller's latest counted row embeds (Afek and
/// others 1993). A scan of `n` callers makes at most `n + 1` collects, which are `n * (n + 1)`
/// looks, and at most `n` peeks, whatever the other callers do.
///
/// A scan of N is the view's where the caller keeps a reply of the object. A scan takes no memory.
pub fn scan<P: Program, L: Ledger>(
    rows: &Rows<P>,
    caller: &mut Caller<P>,
    region: Region,
    steps: &mut Steps<L>,
) -> Cut
    // The caller belongs to this table.
    requires caller { IsCallerOf P.meaning rows.now caller.old }
    // The caller may begin a scan of this region.
    requires begins { MayScan P.meaning rows.now caller.old region }
    // The caller still belongs to this table, and keeps its number.
    ensures caller { IsStill P.meaning rows.now caller.old caller.new }
    // After the scan the caller means to begin no scan any more, and where the region is N it has
    // handed over the reply that it kept, if there was one; nothing else of its stance changes.
    ensures stance { stance_of caller.new ≡ stance_scanned (stance_of caller.old) region }
    // The caller's local is the one that it had before, changed by one scan of the region and no
    // other event of the caller; the scan ended with the answered cut.
    ensures scanned { HasScanned rows.now.callers region (opening_at caller.old region) result
        (local_with caller.old) (local_with caller.new) }
    // The counter of steps has risen by the number of words that this scan took.
    ensures exact { HasTicked rows.now.callers region (opening_at caller.old region) result
        (local_with caller.old) (local_with caller.new) steps.old steps.new }
    // The entries of the answered cut are at least the counts of the region that the caller had
    // looked at before the scan.
    ensures looked { HoldsLooks region result (local_with caller.old) }
    // The answered cut has one count for each caller.
    ensures wide { length result ≡ rows.now.callers }
    // The counter of steps has risen by at most n * (n + 1) + n for n callers.
    ensures ticks { (steps.old ≤ steps.new)
        × (steps.new ≤ steps.old + most_words rows.now.callers) }
{
    set_out(rows, caller, region, steps);
    loop {
        if let Some(cut) = caller.given() {
            return cut;
        }
        go_on(rows, caller, region, steps);
    }
}
