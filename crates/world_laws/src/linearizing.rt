//! What the object history of a run says of the book of its locals: where the history is
//! linearizable, the book has a legal order.

ghost use Rattle.world_laws.specs.Linearizing.{RunsHaveTheirHistories, LinearizationsAreLegalOrders, LinearizableRunsHaveLegalBooks, NoFalseError};

/// In the history of a run the calls that were invoked are those of the book of its locals, an
/// answered call returned with its reply, and a call that precedes another in the book returned
/// before that one was invoked.
pub fn runs_have_their_histories()
    ensures { RunsHaveTheirHistories }
{}

/// A linearization of a history that agrees with a book is a legal order of that book: a law on
/// lists alone, without runs (Herlihy and Wing 1990).
pub fn linearizations_are_legal_orders()
    ensures { LinearizationsAreLegalOrders }
{}

/// No error is false: where the object history of a run is linearizable, its book has a legal
/// order, and so has the book at every cut of published records, for every program (Castañeda and
/// Rodríguez 2023).
pub fn no_false_error()
    // Where the object history of a run is linearizable, the book of its locals has a legal order.
    ensures whole { LinearizableRunsHaveLegalBooks }
    // Where the object history of a run is linearizable, the book at each cut of published records
    // has a legal order.
    ensures cuts { NoFalseError }
{}
