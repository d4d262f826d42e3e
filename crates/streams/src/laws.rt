//! Laws of streams. Each is the contract of a function with nothing in it.

ghost use Rattle.streams.specs.Laws.{BooksOfStreamsAreValid, BooksHaveTheSamePrecedence, BooksHaveTheSameVerdict, BooksOfStreamsHaveOnePending, ValidStreamsHaveABook, BooksAreThoseOfTheirStreams};

/// A book of a stream is valid, and each of its callers has at most one pending call.
pub fn books_of_streams_are_valid()
    // A book of a stream is valid.
    ensures valid { BooksOfStreamsAreValid }
    // In a book of a stream each caller has at most one pending call.
    ensures pending { BooksOfStreamsHaveOnePending }
{}

/// A call precedes another in a book of a stream exactly where it returns in the stream before the
/// other one is called.
pub fn books_of_streams_have_the_same_precedence()
    ensures { BooksHaveTheSamePrecedence }
{}

/// A book of a stream has a legal order exactly where the stream has one.
pub fn books_of_streams_have_the_same_verdict()
    ensures { BooksHaveTheSameVerdict }
{}

/// A valid stream has a book.
pub fn valid_streams_have_a_book()
    ensures { ValidStreamsHaveABook }
{}

/// A valid book in which each caller has at most one pending call is the book of a stream: of
/// its sketch, read as a stream.
pub fn books_are_those_of_their_streams()
    ensures { BooksAreThoseOfTheirStreams }
{}
