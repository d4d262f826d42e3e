//! Worked cases: which parts of books are evidence, and which books are minimal.

ghost use Rattle.std.specs.Prelude.{◌≡◌, ℕ, List, [], ◌∷◌};
ghost use Rattle.seq_objects.specs.declared.kind.Kind.TheVariants as kinds;
ghost use Rattle.seq_objects.specs.Objects.{kind_spec};
ghost use Rattle.smaller_book.specs.Earliest.{IsEarliest};
ghost use Rattle.smaller_book.specs.Evidence.{IsEvidence};
ghost use Rattle.smaller_book.specs.Minimal.{IsMinimal, IsMoment, IsClosedCut};
ghost use Rattle.judging_examples.specs.EvidenceBooks.{three_increments, last_increment, two_zeros};
ghost use Rattle.judging_examples.specs.EvidenceBooks.{misread, read_beside_write, read_of_write, read_alone};
ghost use Rattle.judging_examples.specs.EvidenceBooks.{one_miscount, unanswered_increment, miscount_and_more, two_miscounts};
ghost use Rattle.judging_examples.specs.EvidenceBooks.{needless_read, needless_put, later_read, later_take};
ghost use Rattle.judging_examples.specs.SmallerBooks.{two_puts};

/// Parts to which no steps lead: one lacks increments and one a write that the view of an answered
/// call held, and one lacks an answer but not its call.
pub fn parts_by_no_rule()
    // Of three overlapping increments that reply 0, 0 and 1, the one that replies 1 alone is no
    // evidence.
    ensures increment { (names : List (List ℕ))
        → ¬ IsEvidence kinds.Counter three_increments names last_increment }
    // Of a write of 5 to a register with compare-and-set and a read of 5 after it, the read alone
    // is no evidence.
    ensures read { (names : List (List ℕ))
        → ¬ IsEvidence kinds.CasRegister read_of_write names read_alone }
    // A lone call without its answer is no evidence.
    ensures answer { (names : List (List ℕ))
        → ¬ IsEvidence kinds.Counter one_miscount names unanswered_increment }
{}

/// Parts to which one step leads, back to an earlier cut.
pub fn parts_by_a_cut()
    // Of three overlapping increments that reply 0, 0 and 1, the cut without the reply 1 is
    // evidence.
    ensures increments { IsEvidence kinds.Counter three_increments
        ((0 ∷ []) ∷ (0 ∷ []) ∷ (0 ∷ []) ∷ []) two_zeros }
    // Of a write and a read after it, the cut without the answer of the write is evidence.
    ensures read { IsEvidence kinds.Register misread ((0 ∷ []) ∷ (0 ∷ []) ∷ []) read_beside_write }
{}

/// Parts to which one step leads, without a read-only call or without the calls of a key.
pub fn parts_by_fewer_calls()
    // Of two reads, the second one alone is evidence.
    ensures read { IsEvidence kinds.Register needless_read ((1 ∷ []) ∷ []) later_read }
    // Of a put of 5 and a take of 6, the take alone is evidence.
    ensures take { IsEvidence kinds.Queue needless_put ((1 ∷ []) ∷ []) later_take }
    // The take has the number 1 in the book: with the number 0 it is no evidence.
    ensures numbers { ¬ IsEvidence kinds.Queue needless_put ((0 ∷ []) ∷ []) later_take }
{}

/// Which books are earliest, which are minimal, and which aren't.
pub fn minimal_books()
    // A lone wrong reply is minimal.
    ensures wrong_reply { IsMinimal kinds.Counter one_miscount }
    // Of two wrong replies the first one alone has no legal order: the book is neither earliest nor
    // minimal.
    ensures later_reply { ¬ IsEarliest (kind_spec kinds.Counter) two_miscounts
        × ¬ IsMinimal kinds.Counter two_miscounts }
    // A book with a call that no view holds isn't earliest.
    ensures unheld { ¬ IsEarliest (kind_spec kinds.Counter) miscount_and_more }
    // A book without whose first read it has no legal order either is earliest, and isn't minimal.
    ensures needless_read { IsEarliest (kind_spec kinds.Register) needless_read
        × ¬ IsMinimal kinds.Register needless_read }
    // A book without whose put it has no legal order either is earliest, and isn't minimal.
    ensures needless_put { IsEarliest (kind_spec kinds.Queue) needless_put
        × ¬ IsMinimal kinds.Queue needless_put }
{}

/// Which cuts are closed, and which are moments.
pub fn closed_cuts_and_moments()
    // Of three records with equal views a closed cut may hold two and lack one.
    ensures equal_views { IsClosedCut three_increments (1 ∷ 1 ∷ 0 ∷ []) }
    // A cut that holds a read and lacks the write whose view is smaller isn't closed.
    ensures smaller_view { ¬ IsClosedCut misread (0 ∷ 1 ∷ []) }
    // A cut whose views count one call more of a caller than it has records of the caller is a
    // moment.
    ensures one_more { IsMoment three_increments (1 ∷ 1 ∷ 0 ∷ []) }
    // A cut with a view that counts two calls more isn't one.
    ensures two_more { ¬ IsMoment two_puts (0 ∷ 1 ∷ []) }
{}
