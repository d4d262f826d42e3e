//! The book that the rows of the table hold.

ghost use Rattle.world_laws.specs.Rows.{RowsAreAValidBook, BooksAtCutsAreInTheRows, BooksAtGivenCutsAreInTheRows};

/// The counted rows of every reachable world are a valid book: the callers' calls, and of their
/// records those that were published.
pub fn rows_are_a_valid_book()
    ensures { RowsAreAValidBook }
{}

/// At a cut of published records, and so at each cut that a scan of M gave, the book of the rows is
/// valid, and is the book at that cut of all callers' calls.
pub fn books_at_cuts_are_in_the_rows()
    // The book of the rows at each cut of published records is valid, and is the book at that cut
    // of all callers' calls.
    ensures published { BooksAtCutsAreInTheRows }
    // The book of the rows at each cut that a scan of M gave is valid, and is the book at that cut
    // of all callers' calls.
    ensures given { BooksAtGivenCutsAreInTheRows }
{}
