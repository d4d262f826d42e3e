//! Worked cases: what the definitions and the laws say of small books that are written out.

ghost use Rattle.std.specs.Prelude.{◌≡◌, [], ◌∷◌, take};
ghost use Rattle.book_base.specs.Book.{IsValid};
ghost use Rattle.book_base.specs.BookAt.{book_at};
ghost use Rattle.book_base.specs.Order.{IsLegalOrder, HasLegalOrder};
ghost use Rattle.legal_orders.specs.Greatest.{greatest_counts};
ghost use Rattle.judging_examples.specs.Books.{line_spec, caller_page, overtaken, overtaken_seen, overtaken_early, overtaking, tenfold_spec, mistaken};

/// The books at three cuts of one book. Each has exactly the calls that the view of some record
/// within the cut holds, of whichever caller, answered or not.
pub fn books_at_cuts()
    // The book in which caller 0 puts in 5 and then takes 6, which caller 1 put in, is valid.
    ensures valid { IsValid overtaken }
    // The book at the cut of all records has the calls that some view holds. It lacks caller 0's
    // last call, which no view holds.
    ensures all { book_at (2 ∷ 1 ∷ []) overtaken ≡ overtaken_seen }
    // The book at the cut of caller 0's first record has the calls that the view of this record
    // holds, and no other record.
    ensures early { book_at (1 ∷ 0 ∷ []) overtaken ≡ overtaken_early }
    // The book at the cut without records has no calls.
    ensures none { book_at (0 ∷ 0 ∷ []) overtaken ≡ caller_page [] [] ∷ caller_page [] [] ∷ [] }
{}

/// A legal order of the book at the cut of all its records isn't legal for the book at an earlier
/// cut, in which the call of caller 1 is unanswered, and which lacks caller 0's second call. The
/// first two places of the order are legal for it.
pub fn an_order_ends_early()
    // The whole order is legal for the book at the cut of all its records.
    ensures whole { IsLegalOrder line_spec overtaken_seen overtaking }
    // The whole order isn't legal for the book at the earlier cut.
    ensures too_long { ¬ IsLegalOrder line_spec overtaken_early overtaking }
    // The first two places of the order are legal for the book at the earlier cut.
    ensures prefix { IsLegalOrder line_spec overtaken_early (take 2 overtaking) }
    // The first place of the order alone isn't legal for the book at the earlier cut.
    ensures too_short { ¬ IsLegalOrder line_spec overtaken_early (take 1 overtaking) }
{}

/// Of a worked book with one wrong reply, the book at the cut of this record alone has no legal
/// order, and neither has the book at the larger cut of both records.
pub fn an_error_stays()
    // The book at the cut of the wrong reply alone has no legal order.
    ensures first { ¬ HasLegalOrder tenfold_spec (book_at (1 ∷ 0 ∷ []) mistaken) }
    // The book at the cut of both records has no legal order.
    ensures later { ¬ HasLegalOrder tenfold_spec (book_at (1 ∷ 1 ∷ []) mistaken) }
{}

/// The greatest counts of three cuts are the counts of the second one, which contains the others.
/// The greatest counts of no cut are zeros.
pub fn greatest_of_three()
    // The greatest counts of the three cuts are the counts of the second one.
    ensures three { greatest_counts 2 ((1 ∷ 0 ∷ []) ∷ (2 ∷ 1 ∷ []) ∷ (1 ∷ 1 ∷ []) ∷ [])
        ≡ 2 ∷ 1 ∷ [] }
    // The greatest counts of no cut are zeros.
    ensures none { greatest_counts 2 [] ≡ 0 ∷ 0 ∷ [] }
{}
