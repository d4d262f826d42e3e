//! Laws of the faulty machines: what each of them replies to the last call of a log.

ghost use Rattle.test_objects.specs.Lossy.{LosesEachSecondPut};
ghost use Rattle.test_objects.specs.Twice.{TakesLeaveTheList};
ghost use Rattle.test_objects.specs.Late.{PutsWait};
ghost use Rattle.test_objects.specs.Invent.{ThirdCallsAreInvented};

/// The lossy machine drops the second put of the log, the fourth, and so on.
#[tactic(auto, using(crate::proofs::Answering::loses_each_second_put))]
pub fn loses_each_second_put()
    ensures { LosesEachSecondPut }
{}

/// The machine that gives an item twice leaves out the takes of the log before its last call.
#[tactic(auto, using(crate::proofs::Answering::takes_leave_the_list))]
pub fn takes_leave_the_list()
    ensures { TakesLeaveTheList }
{}

/// The late machine makes the change of a put only at the next call of the put's caller, before
/// that call.
#[tactic(auto, using(crate::proofs::Answering::puts_wait))]
pub fn puts_wait()
    ensures { PutsWait }
{}

/// The inventing machine answers the third call of each caller with the value 99, and each other
/// call lawfully.
#[tactic(auto, using(crate::proofs::Answering::third_calls_are_invented))]
pub fn third_calls_are_invented()
    ensures { ThirdCallsAreInvented }
{}
