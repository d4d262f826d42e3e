//! Laws of parts of a book. Each is the contract of a function with nothing in it.

ghost use Rattle.smaller_book.specs.ReadOnly.{HasOneWithoutReadOnly, HasOneExactlyWithoutOpenReadOnly};
ghost use Rattle.smaller_book.specs.Unseen.{HasOneWithoutUnseen};
ghost use Rattle.smaller_book.specs.OneKey.{HasOneWithoutUnseenOfKind};
ghost use Rattle.smaller_book.specs.Settings.{WordsTell};
ghost use Rattle.smaller_book.specs.Keys.{HasOneWithoutKeys};
ghost use Rattle.smaller_book.specs.Evidence.{EvidenceIsAPart, EvidenceCarriesOver, EvidenceTells, EvidenceKeepsTheRest};
ghost use Rattle.smaller_book.specs.Minimal.{MinimalAtMoments, ClosedCutsAreMoments, FewCallsAtCuts, SeveralOpenAtCuts};

/// Read-only calls may be left out of a book, whether they are answered or not.
pub fn read_only_calls_may_be_left_out()
    // Where a book has a legal order, each part that lacks only read-only calls has one.
    ensures all { HasOneWithoutReadOnly }
    // Where a part lacks only unanswered read-only calls, the book has a legal order exactly where
    // the part has one.
    ensures unanswered { HasOneExactlyWithoutOpenReadOnly }
{}

/// Calls that set the object's list, whatever the list was before, may be left out, many at once,
/// where no call that stays can tell: each one is blind, precedes the call that goes, comes after
/// one that overwrites what the call sets, or has a reply that the object doesn't give at the list
/// that was set.
pub fn unseen_calls_may_be_left_out()
    // Where a book has a legal order, each part that lacks only such calls and read-only ones has
    // one, whichever list the object begins with.
    ensures carries_over { HasOneWithoutUnseen }
    // So it is in a book of one key of a set or a map from each list that has at most this key,
    // where the calls that go set their lists from such lists.
    ensures one_key { HasOneWithoutUnseenOfKind }
    // Calls that are unseen by their words are unseen: of registers, with or without
    // compare-and-set, and of sets and maps in a book of one key.
    ensures words { WordsTell }
{}

/// All calls of some keys may be left out; of a queue, a stack or a priority queue where each view
/// holds at most one unanswered call of each caller. Where the book has a legal order from a
/// well-formed list on, the part without these calls has one from that list without the items of
/// these keys.
pub fn calls_of_keys_may_be_left_out()
    ensures { HasOneWithoutKeys }
{}

/// Where a book has a legal order, each part that is evidence of it has one; where such a part has
/// none, the book has none.
pub fn evidence_tells()
    // For each part that is evidence of a book there are keys such that, from whichever well-formed
    // list the book has a legal order, of a set one in which no item stands twice, the part has one
    // from the list without the items of these keys.
    ensures carries_over { EvidenceCarriesOver }
    // Where a book has a legal order, each part that is evidence of it has one.
    ensures tells { EvidenceTells }
{}

/// Each part that is evidence of a book has calls of the book, and lacks none that matters to an
/// answer which it keeps.
pub fn evidence_is_a_part()
    // Each part that is evidence of a book is the part of it that has the calls with these numbers.
    ensures part { EvidenceIsAPart }
    // Each call that is held by the view of an answered call of the part, and that is neither
    // read-only nor about a key, is in the part, unless it sets a list and the answered call can't
    // tell.
    ensures rest { EvidenceKeepsTheRest }
{}

/// A minimal valid book has a legal order at each earlier cut at which each view holds at most one
/// unanswered call of each caller. A minimal book with few calls, or with a view that holds several
/// unanswered calls of one caller, has a legal order at each cut within its records that lacks one
/// of them.
pub fn minimal_books_have_earlier_orders()
    // A minimal valid book has a legal order at each moment that lacks a record: a moment is a cut
    // whose records have views that count for each caller at most one call more than the cut has
    // records.
    ensures moments { MinimalAtMoments }
    // In a valid book with one open, a cut is a moment where it holds with each record all records
    // with smaller views. Of records with equal views it may hold some and lack others.
    ensures closed { ClosedCutsAreMoments }
    // A minimal book of at most `FEW_CALLS` calls has a legal order at each cut that lacks a
    // record.
    ensures few { FewCallsAtCuts }
    // A minimal book with a view that holds several unanswered calls of one caller has a legal
    // order at each cut that lacks a record.
    ensures several { SeveralOpenAtCuts }
{}
