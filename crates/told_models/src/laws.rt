//! Laws of tables and searches. Each is the contract of a function with nothing in it.

ghost use Rattle.told_models.specs.SearchLaws.{SearchesStay, SearchDialoguesEnd};
ghost use Rattle.told_models.specs.Laws.{CompletionsAgree, AgreesWithFewer, ClosedTablesDecide, ClosedForBooks, AnswersExclude, VerdictsStand};

/// Each table has an object that agrees with it: a table's steps keep its promises
/// ([`crate::ToldTable::init`]).
pub fn some_object_agrees()
    ensures { CompletionsAgree }
{}

/// An object that agrees with a table agrees with each table that it extends: telling more leaves
/// fewer objects.
pub fn telling_more_leaves_fewer_objects()
    ensures { AgreesWithFewer }
{}

/// All objects that agree with a table that is closed under a book's operations, to the number of
/// the book's calls, have the same legal orders of the book.
pub fn closed_tables_decide()
    ensures { ClosedTablesDecide }
{}

/// A table that is closed to a depth under some operation words is closed for all books of these
/// words with no more calls.
pub fn closed_tables_serve_all_books()
    ensures { ClosedForBooks }
{}

/// At a table only one of the answers `Legal` and `Illegal` on a book is right.
pub fn answers_exclude()
    ensures { AnswersExclude }
{}

/// A verdict stays right, whatever else is told.
pub fn verdicts_stand()
    ensures { VerdictsStand }
{}

/// A search may go on after more was told.
pub fn searches_stay()
    ensures { SearchesStay }
{}

/// A dialogue with a search ends, whatever is told, where each round may make at least one step: it
/// has at most one round more than the search has left to try and than there are lists of at least
/// one and at most as many operation words as the book has calls, together.
pub fn dialogues_end()
    ensures { SearchDialoguesEnd }
{}
