//! Laws of refutations and of their texts. Each is the contract of a function with nothing in it.

ghost use Rattle.refutation_text.specs.Laws.{StepsLeaveALegalOrder, RefutedBooksHaveNoOrder, OneFirstFault, NoFaultOfAText};

/// Where a book has a legal order, each part that steps leave of it has one.
pub fn steps_leave_a_legal_order()
    ensures { StepsLeaveALegalOrder }
{}

/// A book with a right refutation has no legal order.
pub fn refuted_books_have_no_order()
    ensures { RefutedBooksHaveNoOrder }
{}

/// Bytes have one first fault at most as the text of a refutation.
pub fn one_first_refutation_fault()
    ensures { OneFirstFault }
{}

/// A refutation's text has no fault.
pub fn no_fault_of_a_refutation()
    ensures { NoFaultOfAText }
{}
