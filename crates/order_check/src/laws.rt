//! Laws of faults of orders. Each is the contract of a function with nothing in it.

ghost use Rattle.order_check.specs.Laws.{LegalOrdersFailNoTest, FirstFaultsAreOne};

/// A legal order of a book fails no test.
#[tactic(auto, using(crate::proofs::Faults::legal_orders_fail_no_test))]
pub fn legal_orders_fail_no_test()
    ensures { LegalOrdersFailNoTest }
{}

/// A list of places has at most one first fault.
#[tactic(auto, using(crate::proofs::Faults::first_faults_are_one))]
pub fn first_faults_are_one()
    ensures { FirstFaultsAreOne }
{}
