//! What holds along every run.

ghost use Rattle.world_laws.specs.Runs.{StartIsReachable, StepsReach, CountsNeverFall, CountedRowsStay, CountsAreOwn, RowsAreOwn, LocalsAreOwn, LocalsAgree};

/// The world at the start is reachable, and so is the world after each step that is enabled in a
/// reachable world.
#[tactic(auto, using(crate::proofs::Running::start_is_reachable, crate::proofs::Running::steps_reach))]
pub fn runs_go_on()
    // The world at the start is reachable.
    ensures start { StartIsReachable }
    // The world after a step that is enabled in a reachable world is reachable.
    ensures step { StepsReach }
{}

/// Counts never fall along a run.
#[tactic(auto, using(crate::proofs::Running::counts_never_fall))]
pub fn counts_never_fall()
    ensures { CountsNeverFall }
{}

/// A counted row never changes: once a row's number is below its caller's count in a region, the
/// row's words of that region stay as they are.
#[tactic(auto, using(crate::proofs::Running::counted_rows_stay))]
pub fn counted_rows_stay()
    ensures { CountedRowsStay }
{}

/// A caller's own words and its local are changed by its own events alone.
#[tactic(auto, using(crate::proofs::Running::counts_are_own, crate::proofs::Running::rows_are_own, crate::proofs::Running::locals_are_own))]
pub fn own_events_alone()
    // The counts of a caller stay while only others make steps.
    ensures counts { CountsAreOwn }
    // The rows of a caller stay while only others make steps.
    ensures rows { RowsAreOwn }
    // The local of a caller stays while only others make steps.
    ensures local { LocalsAreOwn }
{}

/// In every reachable world the phase, the counts and the lists of a local agree with each other
/// and with the words of the table. The caller's own counts are its count words. Each announced
/// operation, each published record and each embedded cut is in its row, and of the words staged at
/// a place the last one is in the row under way.
#[tactic(auto, using(crate::proofs::Running::locals_agree))]
pub fn locals_agree()
    ensures { LocalsAgree }
{}
