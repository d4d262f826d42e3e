//! What holds of the cuts that scans give, borrowed cuts included.

ghost use Rattle.world_laws.specs.Bounds.{ScansAreBounded, ScansAreBoundedInRuns, EndedScansAreBounded};
ghost use Rattle.world_laws.specs.Cuts.{CutsWereCounts, EmbeddedCutsWereCounts, GivenCutsWereCounts, EmbeddedCutsWereOwnCounts, CutsAreComparable, GivenCutsAreComparable, ViewsAreComparable, SeenCutsAreComparable, CutsRise, CutsHoldLooked, CutsHaveSince};
ghost use Rattle.world_laws.specs.Spans.{CutsAreInstantaneous, CutsHoldEarlier, CutsHoldNoLater, CutsHoldOwn, CutsTellSince, CutsHaveSpans};

/// The cut that a scan gave was the counts of its region at one moment of the run, and so was each
/// cut that a counted row embeds (Afek and others 1993).
pub fn cuts_were_counts()
    // The cut that a scan gave was the counts of its region at one moment of the run.
    ensures given { CutsWereCounts }
    // The cut that a counted row embeds was the counts of its region at one moment of the run.
    ensures embedded { EmbeddedCutsWereCounts }
    // Each cut that a scan gave, in the locals of a reachable world, was the counts of its region
    // at one moment.
    ensures given_to_locals { GivenCutsWereCounts }
    // Each cut that a counted row embeds, in the locals of a reachable world, was the counts of its
    // region at one moment.
    ensures embedded_in_locals { EmbeddedCutsWereOwnCounts }
{}

/// Any two cuts that scans of one region gave are comparable; so are any two views, and any two
/// seen cuts.
pub fn cuts_are_comparable()
    // Any two cuts that scans of one region gave in a run are comparable.
    ensures runs { CutsAreComparable }
    // Any two cuts that scans of one region gave, in the locals of a reachable world, are
    // comparable.
    ensures locals { GivenCutsAreComparable }
    // Any two views in the locals of a reachable world are comparable.
    ensures views { ViewsAreComparable }
    // Any two seen cuts in the locals of a reachable world are comparable.
    ensures seen { SeenCutsAreComparable }
{}

/// The cut of a scan, borrowed or not, was the counts of its region at a moment between the scan's
/// first look and its last step (Afek and others 1993).
pub fn cuts_are_instantaneous()
    ensures { CutsAreInstantaneous }
{}

/// The cut of a scan holds what was counted before the scan began, and nothing that was counted
/// after it ended; and its entry for the scanning caller is that caller's own count.
pub fn cuts_hold_by_time()
    // The cut of a scan holds all that was counted before the scan began.
    ensures earlier { CutsHoldEarlier }
    // The cut of a scan holds nothing that was counted after the scan ended.
    ensures no_later { CutsHoldNoLater }
    // The entry of a scan's cut for the scanning caller is that caller's count as the scan ends.
    ensures own { CutsHoldOwn }
    // The field `since` of a cut is the number of counts that its caller had looked at before the
    // cut's scan began.
    ensures since { CutsTellSince }
{}

/// Each cut that a caller was given came of a scan by this caller in some span of the run; so the
/// laws on the cut of a span hold of it too.
pub fn cuts_have_spans()
    ensures { CutsHaveSpans }
{}

/// A cut that a caller was given contains each cut of the same region that the caller was given
/// before; and no count of that region that the caller had looked at before the cut's scan began is
/// above the cut's entry.
pub fn cuts_rise()
    // A cut of a region contains each cut of that region that its caller was given before.
    ensures cuts { CutsRise }
    // A count that a caller looked at before its scan of the same region began is at most the entry
    // of that scan's cut for the caller whose count it is.
    ensures looked { CutsHoldLooked }
    // The field `since` of a cut is at most the number of counts that its caller has looked at.
    ensures since { CutsHaveSince }
{}

/// A scan of `n` callers makes at most `n + 1` collects, which are `n * (n + 1)` looks, and at most
/// `n` peeks, whatever the others do. This holds of a scan under way and of one that has given its
/// cut.
pub fn scans_are_bounded()
    // In the locals of a reachable world each scan that a caller has under way has steady words,
    // and has made at most n + 1 collects and n peeks, where n is the number of callers.
    ensures locals { ScansAreBounded }
    // At the end of a run each scan that a caller has under way has steady words, and has made at
    // most n + 1 collects and n peeks, where n is the number of callers.
    ensures runs { ScansAreBoundedInRuns }
    // A scan that has given its cut had steady words, and made at most n + 1 collects and n peeks,
    // where n is the number of callers.
    ensures ended { EndedScansAreBounded }
{}
