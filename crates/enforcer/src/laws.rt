//! What outcomes say of the lines of their calls and of later outcomes. Each law is the contract of
//! a function with an empty body.

ghost use Rattle.enforcer.specs.Enforced.{OutcomesAreVerdicts, ErrorsAreFinal, IllegalOutcomesAreErrors, IllegalOutcomesAreEvidence};

/// Where an outcome is right for a book that its caller has gathered, the end of the call's line
/// that it makes is right too: where the line ends with `Delivered`, a book that the caller has
/// gathered at the seen cut has a legal order; where it ends with `Error`, a book that the caller
/// has gathered at the seen cut has no legal order.
#[tactic(auto, using(crate::proofs::Outcomes::outcomes_are_verdicts))]
pub fn outcomes_are_verdicts()
    ensures { OutcomesAreVerdicts }
{}

/// An error is final. In a reachable world in which the book at a cut, taken from the book of all
/// callers' calls, has no legal order, an outcome is an error if its seen cut contains that cut and
/// it is right for the book at its seen cut (Castañeda and Rodríguez 2023).
#[tactic(auto, using(crate::proofs::Outcomes::errors_are_final))]
pub fn errors_are_final()
    ensures { ErrorsAreFinal }
{}

/// What an illegal outcome says of its call and of the object.
#[tactic(auto, using(crate::proofs::Outcomes::illegal_outcomes_are_errors, crate::proofs::Outcomes::illegal_outcomes_are_evidence))]
pub fn illegal_outcomes_are_evidence()
    // An illegal outcome is an error, of the record and the seen cut that it carries: the line of
    // its call ends with `Error` and with both, and its caller is halted. An illegal verdict on the
    // call makes this outcome, whatever order is kept.
    ensures errors { IllegalOutcomesAreErrors }
    // An illegal outcome carries the book of all callers' calls at the seen cut, and this book has
    // no legal order, where the outcome is right in a reachable world.
    ensures evidence { IllegalOutcomesAreEvidence }
{}
