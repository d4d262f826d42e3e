//! Laws of gathered books: a book that a caller has gathered stays gathered. And the number of row
//! words of one small book.

ghost use Rattle.std.specs.Prelude.{◌≡◌};
ghost use Rattle.row_gather.specs.Gathered.{GatheredByStays, EmptyIsGathered};
ghost use Rattle.row_gather.specs.Words.{one_answered, words_of_book};

/// A book that a caller has gathered stays gathered while the caller peeks more. The book without a
/// call is gathered by every caller at the cut whose counts are all 0, whatever the caller has
/// peeked.
#[tactic(auto, using(crate::proofs::Kept::gathered_by_stays, crate::proofs::Beginning::empty_is_gathered))]
pub fn gathered_books_stay()
    // A kept book that a caller has gathered stays gathered while the caller peeks more.
    ensures stays { GatheredByStays }
    // Every caller has gathered the book without a call, at the cut whose counts are all 0.
    ensures empty { EmptyIsGathered }
{}

/// A book of two callers with one call each, of which one is answered, has 7 words: two for each
/// call, and three for the record.
pub fn words_in_numbers()
    ensures { words_of_book one_answered ≡ 7 }
{}
