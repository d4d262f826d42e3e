//! What holds of the locals of one reachable world, said of locals alone; and what then holds at
//! the end of a run.

ghost use Rattle.world_laws.specs.Locals.{LocalsHavePhases, KnownRowsAreCounted, PeekedWordsAreWords, LookedCountsAreLow, GivenCutsAreLow, GivenCutsArePublished, KnownRowsAreCountedInRuns, PeekedWordsStand, LookedCountsAreLowInRuns, AnnouncementsGiveUpScans, PublicationsGiveUpScans};

/// In every reachable world there is one local for each caller. The counts and the list lengths of
/// each local are those that its phase demands, and its counts are at most the cap.
pub fn locals_have_phases()
    ensures { LocalsHavePhases }
{}

/// Each row that a caller knows to be counted (by a count that it looked at, by a cut that its scan
/// gave or, in N, by an entry of a view that it peeked) is counted, and its number is below the
/// cap.
#[tactic(auto, using(crate::proofs::Locals::known_rows_are_counted, crate::proofs::Locals::known_rows_are_counted_in_runs))]
pub fn known_rows_are_counted()
    // In the locals of a reachable world the number of each row that a caller knows to be counted
    // is below the cap, and below the own count of the row's caller.
    ensures locals { KnownRowsAreCounted }
    // At the end of a run the number of each row that a caller knows to be counted is below the
    // cap, and below the count word of the row's caller.
    ensures runs { KnownRowsAreCountedInRuns }
{}

/// A word that a caller peeked is the word that belongs at its place in a counted row, and it still
/// stands there.
pub fn peeked_words_are_words()
    // A word that a caller peeked in a row is the word of the row's call that belongs at this
    // place, and the row is counted.
    ensures locals { PeekedWordsAreWords }
    // A word that a caller peeked in a run stands at its place in a counted row at the run's end.
    ensures runs { PeekedWordsStand }
{}

/// A count that a caller looked at is at most the own count of the caller whose count it is.
pub fn looked_counts_are_low()
    // A count that a caller looked at is at most the own count of the caller whose count it is.
    ensures locals { LookedCountsAreLow }
    // A count that a caller looked at is at most what the same count word is at the end of the run.
    ensures runs { LookedCountsAreLowInRuns }
{}

/// No entry of a cut that a scan gave is above the own count of the caller that it is for; so a cut
/// of M counts published records alone.
pub fn given_cuts_are_low()
    // A cut that a scan gave has one count for each caller, none above that caller's own count.
    ensures low { GivenCutsAreLow }
    // A cut of M that a scan gave counts published records alone.
    ensures published { GivenCutsArePublished }
{}

/// An announcement and a publication give up the scan that their caller has under way, if there is
/// one.
#[tactic(auto, using(crate::proofs::Locals::announcements_give_up_scans, crate::proofs::Locals::publications_give_up_scans))]
pub fn counted_rows_give_up_scans()
    // An announcement gives up the scan that its caller has under way, if there is one.
    ensures announcements { AnnouncementsGiveUpScans }
    // A publication gives up the scan that its caller has under way, if there is one.
    ensures publications { PublicationsGiveUpScans }
{}
