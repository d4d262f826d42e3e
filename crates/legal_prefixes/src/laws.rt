//! A law of legal prefixes, the contract of a function with an empty body.

ghost use Rattle.legal_prefixes.specs.Prefixes.{OrdersBeginLegally};

/// What a legal order of a book begins with is a legal prefix of the book.
pub fn orders_begin_legally()
    // The places with which a legal order of a book begins are a legal prefix of the book.
    ensures { OrdersBeginLegally }
{}
