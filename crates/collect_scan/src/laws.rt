//! What a scan changes in its caller's local and what it keeps, and what its cut has to do with the
//! caller's earlier cuts, looks and counts.

ghost use Rattle.std.specs.Prelude.{◌≡◌, ◌≢◌};
ghost use Rattle.world_core.specs.Local.{Viewing};
ghost use Rattle.world_core.specs.Event.{Begins_scan};
ghost use Rattle.row_table.specs.Callers.{IsCallerOf, local_with};
ghost use Rattle.collect_scan.specs.Given.{ScansAddTheirCut, ScansLeaveWork, CutsAreFew, OwnEntriesAreCounts, CutsHoldGiven, CutsHoldLooks, GivenRowsAreKnown, ViewScansHavePhase};
ghost use Rattle.collect_scan.specs.Scanned.{most_words};
ghost use Rattle.collect_scan.specs.Turns.{MayScan, opening_at};

use row_table::{Caller, Rows};
use world_core::{Program, Region};

/// The cut of a scan is the last of those that its caller was given. A scan doesn't change its
/// caller's calls, except that the view's scan adds the reply with which it begins.
pub fn scans_add_one_cut()
    // A scan adds its cut to the cuts that its caller was given, as the last of them.
    ensures cut { ScansAddTheirCut }
    // A scan doesn't change its caller's operations, counts, replies and object steps, except that
    // the view's scan adds the reply with which it begins.
    ensures work { ScansLeaveWork }
{}

/// No count of a scan's cut is above the cap. A scan's cut that a row may embed, that is a view, or
/// that is a seen cut has as its entry for the scan's own caller the count that this caller has in
/// the region after the scan.
pub fn cuts_are_of_counts()
    // No count of a scan's cut is above the cap.
    ensures few { CutsAreFew }
    // A scan's cut that serves the row under way, the view or the seen cut has as its entry for the
    // scan's own caller the count that this caller has in the region after the scan.
    ensures own { OwnEntriesAreCounts }
{}

/// The cuts of a caller rise: a scan's cut contains each cut of its region that its caller was
/// given before the scan, and its entries are at least the counts of that region that the caller
/// had looked at before the scan.
pub fn cuts_rise()
    // A scan's cut contains each cut of its region that the caller was given before the scan.
    ensures given { CutsHoldGiven }
    // The entries of a scan's cut are at least the counts of its region that the caller had looked
    // at before the scan.
    ensures looked { CutsHoldLooks }
{}

/// A caller knows, and so may peek, each row of a region whose number is below the entry for the
/// row's caller in a cut of that region that a scan gave the caller.
pub fn given_rows_are_known()
    ensures { GivenRowsAreKnown }
{}

/// In a local of a reachable world the view's scan is under way only if the local's phase is view.
/// While it is under way no other scan may begin.
pub fn view_scans_have_phase()
    ensures { ViewScansHavePhase }
{}

/// A scan of one caller takes 3 words at most, of two callers 8, and of sixteen 288.
pub fn few_words_in_numbers()
    // A scan of one caller takes 3 words at most.
    ensures one { most_words 1 ≡ 3 }
    // A scan of two callers takes 8 words at most.
    ensures two { most_words 2 ≡ 8 }
    // A scan of sixteen callers takes 288 words at most.
    ensures sixteen { most_words 16 ≡ 288 }
{}

/// In each phase but the phase view, a caller may begin a scan that carries no reply.
pub fn plain_scan_may_begin<P: Program>(rows: &Rows<P>, caller: &Caller<P>, region: Region)
    // The caller belongs to this table.
    requires caller { IsCallerOf P.meaning rows.now caller.now }
    // The caller isn't in the phase view.
    requires phase { (local_with caller.now).phase ≢ Viewing }
    // A scan of the region that this caller begins carries no reply.
    requires plain { opening_at caller.now region ≡ Begins_scan }
    ensures { MayScan P.meaning rows.now caller.now region }
{}
