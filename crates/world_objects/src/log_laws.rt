//! What holds of every run of a log, for every sequential object, number of callers and cap. Each
//! law is the contract of a function with nothing in it.

ghost use Rattle.world_objects.specs.LogEffects.{LogsLinearize, LogOrdersAreOfTickets};
ghost use Rattle.world_objects.specs.LogRules.{LogRulesHold, TicketsStay, SomePlaceIsFree};

/// In every reachable world the filled places of the log are a prefix, each ticket names a call
/// whose words are stored, no ticket is at two places, and the word that an object step left is
/// still there. A ticket never changes.
pub fn log_rules_hold()
    // The rules of a log hold in every reachable world of its program.
    ensures rules { LogRulesHold }
    // A ticket never changes along a run.
    ensures tickets { TicketsStay }
{}

/// While a caller is in the phase ask and the ticket of its call isn't placed, some place of the
/// log is free.
pub fn some_place_is_free()
    ensures { SomePlaceIsFree }
{}

/// The object history of every run of a log is linearizable, in the order of its tickets (Herlihy
/// and Wing 1990).
pub fn logs_linearize()
    // The object history of every run of a log is linearizable.
    ensures linearizable { LogsLinearize }
    // The order of tickets linearizes the object history of every run of a log.
    ensures order { LogOrdersAreOfTickets }
{}
