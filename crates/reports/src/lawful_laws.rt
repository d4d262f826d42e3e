//! What holds of each lawful report. Each law is the contract of a function with nothing in it.

ghost use Rattle.reports.specs.Orders.{DeliveredRepliesStandInOneOrder};
ghost use Rattle.reports.specs.LawfulErrors.{WitnessesHaveNoOrder, NoRunLeavesAnError};

/// All delivered replies are in one legal order, each with its line's operation (Castañeda and
/// Rodríguez 2023).
pub fn delivered_replies_stand_in_one_order()
    ensures { DeliveredRepliesStandInOneOrder }
{}

/// The witness of a lawful report, which is the book at its first error line's seen cut, has no
/// legal order.
pub fn witnesses_have_no_order()
    ensures { WitnessesHaveNoOrder }
{}

/// Where a line of a lawful report is an error, a run at whose end the callers have made just the
/// report's calls, each as far as the report says, has no linearizable object history (Herlihy and
/// Wing 1990).
pub fn no_run_leaves_an_error()
    ensures { NoRunLeavesAnError }
{}
