//! Laws of monitors. Each is the contract of a function with nothing in it.

ghost use Rattle.monitor.specs.Worlds.{RoundsAreRight, RoundsAreJudged, ShortRoundsAreRounds, OwnIsAWitness, WitnessesAreFinal};

/// What a round found is right for the calls of all callers, at each later moment: its cut is
/// published, and the book at the cut has a legal order after a legal round, and none after an
/// illegal one.
pub fn rounds_are_right()
    ensures { RoundsAreRight }
{}

/// What the rounds of a watch found is right for the calls of all callers.
pub fn rounds_are_judged()
    // At each cut of a watch's rounds but the last, the book of all callers' calls has a legal
    // order. At the last cut it has none, unless the watch made all rounds that it may make.
    ensures rounds { RoundsAreJudged }
    // Where a watch was cut short for want of memory, the book of all callers' calls has a legal
    // order at each cut of its rounds but the last.
    ensures short { ShortRoundsAreRounds }
    // The own witness that a watch left is the book of all callers' calls at its cut. This cut
    // counts published records alone, and the book has no legal order.
    ensures own { OwnIsAWitness }
{}

/// Witnesses are final: where there is one, the book of all published records has no legal order.
pub fn witnesses_are_final()
    ensures { WitnessesAreFinal }
{}
