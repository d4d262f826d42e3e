//! What verdicts at seen cuts say of a run, stated by its calls alone.

ghost use Rattle.world_laws.specs.Verdicts.{SeenCutsFit, NoRunHasThisError, NoRunHasThisErrorSeen, DeliveredCallsStandInOne};

/// A seen cut counts published records alone, and the last call of its own caller that it holds is
/// the call for which it was seen; and any two seen cuts are comparable.
pub fn seen_cuts_fit()
    ensures { SeenCutsFit }
{}

/// Where the book of some calls has no legal order at a cut that one of them has seen, no run of
/// any program that ends with these calls has a linearizable object history. Where the book at a
/// cut of a run's published records has no legal order, the run's object history isn't linearizable
/// (Castañeda and Rodríguez 2023).
pub fn no_run_has_this_error()
    // Where the book at a cut of a run's published records has no legal order, the object history
    // of the run isn't linearizable.
    ensures cuts { NoRunHasThisError }
    // Where the book of some calls has no legal order at a cut that one of them has seen, no run
    // that ends with these calls has a linearizable object history.
    ensures seen { NoRunHasThisErrorSeen }
{}

/// All delivered calls of a world are in one legal order: one of the book at the cut that has, for
/// each caller, the greatest count of their seen cuts. This cut holds each of the calls.
pub fn delivered_calls_stand_in_one()
    ensures { DeliveredCallsStandInOne }
{}
