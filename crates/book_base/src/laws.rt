//! Laws of books. Each is the contract of a function with nothing in it.

ghost use Rattle.std.specs.Prelude.{◌≡◌, ℕ, ◌<◌, ◌↔◌, List, length};
ghost use Rattle.book_base.specs.declared.call.Record.{Record};
ghost use Rattle.book_base.specs.Book.{Page, IsValid, AnswersAreRecorded, with_answer};
ghost use Rattle.book_base.specs.OperationWord.{joined, WordsAreJoinedAndParted};
ghost use Rattle.book_base.specs.Refusal.{MayAnswer};
ghost use Rattle.book_base.specs.Rising.{ViewsRise, PrecedesByItsView};
ghost use Rattle.book_base.specs.ReachingLaws.{NoPlacesReachTheStart, OneMorePlaceReachesOn, OneCutIsReached, ReadOnlyMayBeLeftOut};

/// A book takes exactly those answers that leave it valid.
pub fn valid_answers_are_taken()
    ensures { (book : List Page) (caller : ℕ) (answer : Record) → IsValid book
        → caller < length book → length answer.view ≡ length book
        → (IsValid (with_answer book caller answer) ↔ MayAnswer book caller answer.view) }
{}

/// An answer is recorded at its caller's first unanswered call, and no other record changes.
#[tactic(auto, using(crate::proofs::GrowthLemmas::answers_are_recorded))]
pub fn answers_are_recorded()
    ensures { AnswersAreRecorded }
{}

/// The views of one caller rise from call to call, and the view of an answered call holds none of
/// its caller's later calls.
pub fn views_of_a_caller_rise()
    // In a valid book the view of a caller's later answered call contains that of an earlier one.
    ensures rise { ViewsRise }
    // The view of an answered call holds none of its caller's later calls, in a valid book.
    ensures precedes { PrecedesByItsView }
{}

/// Joining a low and a high word below 2^64 gives an operation word with these two words, and each
/// operation word is joined from its own low and high word.
pub fn operation_words_are_two_words()
    // Joining a low and a high word below 2^64 gives an operation word with these two words, and
    // each operation word is joined from its own low and high word.
    ensures words { WordsAreJoinedAndParted }
    // The operation word joined of 5 and 3 is 3 * 2^64 + 5.
    ensures worked { joined 5 3 ≡ 55340232221128654853 }
{}

/// An order reaches a cut and a list place by place. It reaches at most one cut of a given number
/// of callers, and at most one list.
pub fn orders_reach_place_by_place()
    // The empty order reaches the cut that holds no call, and the list with which the object
    // begins.
    ensures start { NoPlacesReachTheStart }
    // Where an order reaches a cut and a list, the order with the next call of some caller as one
    // more place reaches the cut with that call, and the list after its operation.
    ensures more { OneMorePlaceReachesOn }
    // An order reaches at most one cut of a given number of callers, and at most one list.
    ensures one { OneCutIsReached }
{}

/// A read-only operation with its reply may be put into a run or left out of it, at a list at which
/// the object gives this reply.
pub fn read_only_operations_may_be_left_out()
    ensures { ReadOnlyMayBeLeftOut }
{}
