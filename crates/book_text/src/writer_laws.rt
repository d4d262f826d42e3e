//! Laws of what is written of books and sketches. Each is the contract of a function with nothing
//! in it. The law `book_text::a_text_is_its_books_lines` says that bytes are read as a book exactly
//! where they are what is written of it.

ghost use Rattle.book_text.specs.Laws.{WrittenBooksAreOne, NoBookTextBeginsAnother, NoSketchTextBeginsAnother};

/// In each version of the text two books with one written text are equal, and so are their kinds.
pub fn written_books_are_one()
    ensures { WrittenBooksAreOne }
{}

/// In each version no text of a book is a proper prefix of a text of another book.
pub fn no_book_text_begins_another()
    ensures { NoBookTextBeginsAnother }
{}

/// No text of a sketch is a proper prefix of another's.
pub fn no_sketch_text_begins_another()
    ensures { NoSketchTextBeginsAnother }
{}
