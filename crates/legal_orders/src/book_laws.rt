//! Laws of books at cuts, of their legal orders and of cuts. Each is the contract of a function
//! with nothing in it.

ghost use Rattle.legal_orders.specs.BooksAtCuts.{IsTheBookAt, IsTheOnlyOne, StaysValid, IsTheBookAtTheSmaller, RecordCountsAreTheCut, KeepsEachRecord, KeepsEachHeldCall, KeepsEachOperation, HasOneWhereTheBookHas};
ghost use Rattle.legal_orders.specs.Finality.{SomePrefixIsLegal, SmallerHasOne, LargerHasNone};
ghost use Rattle.legal_orders.specs.Greatest.{GreatestIsOne, GreatestContainsEach};

/// The computed book at a cut of a valid book is the only book that `IsBookAt` allows at this cut,
/// and it is valid (Castañeda and Rodríguez 2023).
pub fn book_at_is_the_book_at()
    // The computed book at a cut of a valid book is the book at that cut, as `IsBookAt` states it.
    ensures book { IsTheBookAt }
    // A book at a cut of a valid book, as `IsBookAt` states it, is the computed one.
    ensures only { IsTheOnlyOne }
    // The book at a cut of a valid book is valid.
    ensures valid { StaysValid }
{}

/// The book at a smaller cut of the book at a larger cut of a valid book is the book at the smaller
/// cut of the whole book. The record counts of the book at a cut within the book's record counts
/// are the cut.
#[tactic(auto, using(crate::proofs::BookAtLaws::is_the_book_at_the_smaller, crate::proofs::BookAtLaws::record_counts_are_the_cut))]
pub fn books_at_cuts_agree()
    // The book at a smaller cut of the book at a larger cut of a valid book is the book at the
    // smaller cut of the whole book.
    ensures smaller { IsTheBookAtTheSmaller }
    // Where a cut counts of each caller no more records than the book has, the record counts of the
    // book at the cut are the cut.
    ensures counts { RecordCountsAreTheCut }
{}

/// The book at the cut of all records of a valid book has all answered calls of the book, and of
/// the others exactly those that some view holds. It has a legal order exactly where the book has
/// one.
pub fn calls_without_a_view_are_free()
    // The book at the cut of all records of a valid book has exactly the records of the book.
    ensures records { KeepsEachRecord }
    // The book at the cut of all records of a valid book has exactly the calls that are answered or
    // held by a view.
    ensures calls { KeepsEachHeldCall }
    // Each call of the book at the cut of all records of a valid book has the operation that the
    // book has for it.
    ensures operations { KeepsEachOperation }
    // The book at the cut of all records of a valid book has a legal order exactly where the book
    // has one.
    ensures orders { HasOneWhereTheBookHas }
{}

/// An error is final: where the book at a cut of a valid book has a legal order, the book at each
/// smaller cut has one, and a prefix of that order is one. So where the book at a cut has none, the
/// book at each larger cut has none (Castañeda and Rodríguez 2023).
pub fn error_is_final()
    // Where the book at a cut of a valid book has a legal order, a prefix of that order is legal
    // for the book at each smaller cut.
    ensures prefix { SomePrefixIsLegal }
    // Where the book at a cut of a valid book has a legal order, the book at each smaller cut has
    // one.
    ensures smaller { SmallerHasOne }
    // Where the book at a cut of a valid book has no legal order, the book at each larger cut has
    // none.
    ensures larger { LargerHasNone }
{}

/// The greatest counts of one or more pairwise comparable cuts are one of these cuts, and contain
/// each of them.
#[tactic(auto, using(crate::proofs::GreatestCuts::greatest_is_one, crate::proofs::GreatestCuts::greatest_contains_each))]
pub fn greatest_of_comparable()
    // The greatest counts of some pairwise comparable cuts, at least one, are one of these cuts.
    ensures one { GreatestIsOne }
    // The greatest counts of some pairwise comparable cuts contain each of these cuts.
    ensures contains { GreatestContainsEach }
{}
