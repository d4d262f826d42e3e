//! Laws of entries that refute a queue's book. Each is the contract of a function with nothing in
//! it.

ghost use Rattle.pair_refutations.specs.Laws.{RefutedBooksHaveNoOrder, RefutationsFailNoTest, FirstFaultsAreOne};

/// A book of which a table has the calls, and which entries refute, has no legal order.
pub fn refuted_books_have_no_order()
    ensures { RefutedBooksHaveNoOrder }
{}

/// Entries that refute a book fail no test.
pub fn refutations_fail_no_test()
    ensures { RefutationsFailNoTest }
{}

/// Entries have at most one first fault.
pub fn first_faults_are_one()
    ensures { FirstFaultsAreOne }
{}
