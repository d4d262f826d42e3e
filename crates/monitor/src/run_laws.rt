//! Laws of runs whose callers judge nothing. Each is the contract of a function with nothing in it.

ghost use Rattle.monitor.specs.Deferred.{DeferringClientsMakeAll, LinesAreTheBook};
ghost use Rattle.monitor.specs.Published.{PublishedRecordsAreInTheBook, AnswersAreExact};

/// A client that judges no call makes all phases of its allotment, and its lines have all its calls
/// and records.
pub fn deferring_clients_make_all()
    ensures { DeferringClientsMakeAll }
{}

/// The book of lines that have the calls and the records of all callers is the callers' book.
pub fn lines_are_the_book()
    ensures { LinesAreTheBook }
{}

/// The counts of published records are a cut of the book of all calls.
pub fn published_records_are_in_the_book()
    ensures { PublishedRecordsAreInTheBook }
{}

/// A right answer, and a judgement of the book of all published records, has no witness exactly
/// where this book has a legal order.
pub fn answers_are_exact()
    ensures { AnswersAreExact }
{}
