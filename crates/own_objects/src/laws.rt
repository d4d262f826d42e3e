//! Laws of objects of one's own. Each is the contract of a function with nothing in it.

ghost use Rattle.own_objects.specs.Laws.{RunsAreItsOwn, ListsMakeNoDifference, AnswersHoldOfIt};

/// The runs of an object over states of a type are those of its transition function, from its
/// initial state on.
pub fn runs_are_its_own<S>()
    ensures { RunsAreItsOwn S }
{}

/// A sequential object over lists of words has the same legal orders, taken as an object over
/// states of the type of these lists.
pub fn lists_make_no_difference()
    ensures { ListsMakeNoDifference }
{}

/// At a table that is true of an object a right answer on a book holds of this object.
pub fn answers_hold_of_it<S>()
    ensures { AnswersHoldOfIt S }
{}
