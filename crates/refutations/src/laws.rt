//! Laws of closed lists, of impossible replies and of counts. Each is the contract of a function
//! with nothing in it.

ghost use Rattle.refutations.specs.Laws.{ClosedListsHaveNoOrder, ImpossibleRepliesHaveNoOrder, ExcessTakesHaveNoOrder, MissedPutsHaveNoOrder, ClosedListsFailNoTest, FirstFaultsAreOne};

/// A book for which some list of items is closed has no legal order.
pub fn closed_lists_have_no_order()
    ensures { ClosedListsHaveNoOrder }
{}

/// A book with a reply that the object gives at no list has no legal order.
pub fn impossible_replies_have_no_order()
    ensures { ImpossibleRepliesHaveNoOrder }
{}

/// A container's book has no legal order where more takes show some values up to a moment than puts
/// of them begin up to it.
pub fn excess_takes_have_no_order()
    ensures { ExcessTakesHaveNoOrder }
{}

/// A container's book has no legal order where a take finds nothing, although more puts of some
/// values precede it than takes may have taken out before it.
pub fn missed_puts_have_no_order()
    ensures { MissedPutsHaveNoOrder }
{}

/// Entries that make a closed list fail no test.
pub fn closed_lists_fail_no_test()
    ensures { ClosedListsFailNoTest }
{}

/// Entries have at most one first fault.
pub fn first_faults_are_one()
    ensures { FirstFaultsAreOne }
{}
