//! The book of the locals of one reachable world, and that book at the cuts of published records.

ghost use Rattle.world_laws.specs.Books.{BooksAreValid, PublishedCutsAreWithin, BooksAtPublishedCuts};

/// In every reachable world the book of the locals is valid (Castañeda and Rodríguez 2023). It has
/// the callers' operations, and the reply and the view of each call whose view is taken.
pub fn books_are_valid()
    ensures { BooksAreValid }
{}

/// At every cut of published records, comparable with the views or not, the book of the locals at
/// this cut is valid, and its record counts are the cut.
pub fn books_at_published_cuts()
    // A cut of published records is within the record counts of the book of the locals.
    ensures within { PublishedCutsAreWithin }
    // At each cut of published records the book of the locals at this cut is valid, and its record
    // counts are the cut.
    ensures books { BooksAtPublishedCuts }
{}
