//! Worked cases: small books of a bag, with and without a legal order, and what counts say of them.

ghost use Rattle.std.specs.Prelude.{[], ◌∷◌};
ghost use Rattle.book_base.specs.Order.{HasLegalOrder};
ghost use Rattle.legal_orders.specs.Container.{IsContainer};
ghost use Rattle.queue_pairs.specs.declared.table.Table.{Table};
ghost use Rattle.queue_pairs.specs.Tables.{IsTable};
ghost use Rattle.queue_pairs.specs.Counts.{IsRefuted, PutsAhead, TakesAhead};
ghost use Rattle.judging_examples.specs.Bags.{bag, bag_next, bag_spec, put_and_taken, taken_unput};

/// A book of a bag in which a value is taken out that nobody put in is refuted by counts.
pub fn what_is_taken_was_put_in()
    // By the moment of the take's view more ones have been taken out than put in.
    ensures ahead { (table : Table) → IsTable bag taken_unput table
        → TakesAhead table (1 ∷ []) 1 1 }
    // By the moment of the take's view no more twos have been taken out than put in.
    ensures other { (table : Table) → IsTable bag taken_unput table
        → ¬ TakesAhead table (2 ∷ []) 1 1 }
    // The book's table is refuted, and the bag has no legal order of the book.
    ensures refuted { (table : Table) → IsTable bag taken_unput table
        → IsRefuted table × ¬ HasLegalOrder bag_spec taken_unput }
{}

/// A book of a bag in which a take finds nothing after a put, although nothing was taken out, has
/// no legal order.
pub fn what_is_left_is_found()
    // One 1 has been put in before any view holds the take that finds nothing, and none may have
    // been taken out by its view.
    ensures ahead { (table : Table) → IsTable bag (put_and_taken 0) table
        → PutsAhead table (1 ∷ []) 1 2 }
    // The bag has no legal order of the book in which the take finds nothing after the put.
    ensures none { (table : Table) → IsTable bag (put_and_taken 0) table
        → ¬ HasLegalOrder bag_spec (put_and_taken 0) }
{}

/// A book of the bag in which the 1 is put in and taken out has a legal order, and isn't refuted by
/// counts.
pub fn legal_books_are_not_refuted()
    // The bag is a container.
    ensures bag { IsContainer bag bag_next }
    // The bag has a legal order of the book in which the 1 is put in and taken out.
    ensures legal { HasLegalOrder bag_spec (put_and_taken 2) }
    // The table of the book in which the 1 is put in and taken out isn't refuted.
    ensures kept { (table : Table) → IsTable bag (put_and_taken 2) table → ¬ IsRefuted table }
{}
