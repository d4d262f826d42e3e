//! Laws of books of timed calls. Each is the contract of a function with nothing in it.

ghost use Rattle.history_books.specs.Laws.{WiderCallsPrecedeLess, WiderCallsKeepLegalOrders};

/// Where calls are taken as wider than they were, as by the error of a clock, their book has no
/// precedence that the book of the calls lacks.
pub fn wider_calls_precede_less()
    ensures { WiderCallsPrecedeLess }
{}

/// Where the book of some calls has a legal order, the book of the same calls has one too where they
/// are taken as wider than they were, or some of them as lost. So a clock's error bound never makes
/// a right history illegal.
pub fn wider_calls_keep_legal_orders()
    ensures { WiderCallsKeepLegalOrders }
{}
