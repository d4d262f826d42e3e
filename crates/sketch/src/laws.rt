//! Laws of sketches. Each is the contract of a function with nothing in it.

ghost use Rattle.sketch.specs.Laws.{BooksHaveOneSketch, ValidBooksHaveASketch, EventsStandOnce, CallsReturnAfterTheyAreInvoked, ViewsHoldWhatWasInvoked, ReturnsComeBeforeUnseenCalls};

/// A book has at most one sketch.
#[tactic(auto, using(crate::proofs::Orderly::books_have_one_sketch))]
pub fn books_have_one_sketch()
    ensures { BooksHaveOneSketch }
{}

/// A valid book has a sketch.
#[tactic(auto, using(crate::proofs::Existing::valid_books_have_a_sketch))]
pub fn valid_books_have_a_sketch()
    ensures { ValidBooksHaveASketch }
{}

/// Each call of a book is invoked once, and each answered call returns once, after its invocation.
#[tactic(auto, using(crate::proofs::Orderly::events_stand_once, crate::proofs::Orderly::calls_return_after_they_are_invoked))]
pub fn calls_are_invoked_and_return_once()
    // An event is at one place of a book's sketch at most.
    ensures once { EventsStandOnce }
    // Each call of a valid book is invoked in its sketch, and each answered call returns after its
    // invocation.
    ensures after { CallsReturnAfterTheyAreInvoked }
{}

/// The calls that are invoked before the return of a call are exactly those that its view holds.
#[tactic(auto, using(crate::proofs::Orderly::views_hold_what_was_invoked))]
pub fn views_hold_what_was_invoked()
    ensures { ViewsHoldWhatWasInvoked }
{}

/// In a sketch the return of a call stands before the invocation of another exactly where the call
/// is answered and its view doesn't hold the other.
#[tactic(auto, using(crate::proofs::Orderly::returns_come_before_unseen_calls))]
pub fn returns_come_before_unseen_calls()
    ensures { ReturnsComeBeforeUnseenCalls }
{}
