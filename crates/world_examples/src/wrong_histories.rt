//! Histories that aren't linearizable, each because of one reply or of the place of one call; and a
//! linearization that leaves out a call that never returned.

ghost use Rattle.world_core.specs.History.{IsLinearization, IsLinearizable};
ghost use Rattle.world_examples.specs.Histories.{numbering, without_unanswered, second_alone};
ghost use Rattle.world_examples.specs.WrongHistories.{both_return_0, second_returns_1, before_unanswered, beside_all, returns_1_and_3};

/// Histories that aren't linearizable for an object whose reply is the number of operations before.
/// A wrong reply is found at any call: of any caller, its first call or a later one. A wrong order
/// is found for any two calls, whether other calls stand between them or not.
#[tactic(auto, using(crate::proofs::WrongHistories::both_0_forbidden, crate::proofs::WrongHistories::second_1_forbidden, crate::proofs::WrongHistories::unanswered_forbidden, crate::proofs::WrongHistories::beside_forbidden, crate::proofs::WrongHistories::again_forbidden))]
pub fn wrong_histories_are_not_linearizable()
    // A history in which both calls of a caller, one after the other, return 0 isn't linearizable.
    ensures second_call { ¬ IsLinearizable numbering both_return_0 }
    // A history of one call alone, which is made by the second caller and returns 1, isn't
    // linearizable.
    ensures second_caller { ¬ IsLinearizable numbering second_returns_1 }
    // A history isn't linearizable where its replies fit only an order in which a call that never
    // returned stands before one that had returned before the unanswered call was invoked.
    ensures unanswered { ¬ IsLinearizable numbering before_unanswered }
    // A history isn't linearizable where its replies fit only an order in which call a stands two
    // places before call b, and b had returned before a was invoked.
    ensures apart { ¬ IsLinearizable numbering beside_all }
    // A history isn't linearizable where its replies fit only an order in which a call that never
    // returned stands twice, before another call and after it.
    ensures again { ¬ IsLinearizable numbering returns_1_and_3 }
{}

/// Of a history of two calls, one of which never returned, the order of the other call alone is a
/// linearization.
#[tactic(auto, using(crate::proofs::Histories::leaves_it_out))]
pub fn unanswered_calls_may_be_left_out()
    ensures { IsLinearization numbering without_unanswered second_alone }
{}
