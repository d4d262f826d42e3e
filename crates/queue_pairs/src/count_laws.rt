//! Laws of counts of calls. Each is the contract of a function with an empty body.

ghost use Rattle.queue_pairs.specs.CountLaws.{TakesFollowPuts, FindsLeaveNothing};

/// What a container gives out was put in before.
pub fn takes_follow_puts()
    // Where more takes of some values have taken effect by a moment than puts of them may have by
    // then, no container that begins empty has a legal order of the book.
    ensures { TakesFollowPuts }
{}

/// All that was put in before a take that finds nothing was taken out before it.
pub fn finds_leave_nothing()
    // A take finds nothing, and no view up to a moment holds it. Where more puts of some values
    // have taken effect by this moment than takes may have taken out by the moment of the take's
    // own view, or by a later one, no container that begins empty has a legal order of the book.
    ensures { FindsLeaveNothing }
{}
