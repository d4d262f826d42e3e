//! Worked cases: tables of levels that are closed, and tables that aren't; which unanswered calls
//! don't change a list; and where a take leads.

ghost use Rattle.std.specs.Prelude.{ℕ, List, [], ◌∷◌, Some, None};
ghost use Rattle.book_base.specs.Order.{HasLegalOrder};
ghost use Rattle.list_pruning.specs.LastFirst.{GivesLastFirst};
ghost use Rattle.stack_levels.specs.Levels.{Layer, IsAmong, IsClosed, LeavesTop, TakeLeads};
ghost use Rattle.judging_examples.specs.Piles.{
  both_below,
  one_below,
  unanswered,
  one_below_two,
  one_on_one,
  pile,
  pile_next,
  pile_spec,
  puts_and_takes,
  taken_too_often,
  up_and_down,
  up_to_two,
  without_start,
};

/// A stack can't give an item below its last one: a table of the bottom and one level for each of
/// two puts is closed for a book with a take that shows the lower of the two items.
pub fn what_lies_below_is_not_shown()
    // The table with the bottom, a 1 on it and a 2 on the 1 is closed for the book that puts in 1
    // and 2 and then takes the 1.
    ensures { IsClosed pile (puts_and_takes 1) one_below_two (IsAmong up_to_two) }
{}

/// Two puts of one value can't be taken three times: the table of the pairs to which the puts and
/// two takes lead is closed for a book with a third take. One put serves for the other.
pub fn two_puts_are_taken_twice()
    // The table of the pairs to which two puts of 1 and then two takes lead is closed for the book
    // with two puts and three takes.
    ensures { IsClosed pile taken_too_often one_on_one (IsAmong up_and_down) }
{}

/// Tables that aren't closed: each table for a book that has a legal order, and a table that lacks
/// its first pair, that of the bottom and the cut of no call.
pub fn legal_books_have_no_closed_table()
    // The pile, a stack that holds ones and twos, gives its last value first.
    ensures pile { GivesLastFirst pile pile_next 3 }
    // The book that puts in 1 and 2 and then takes the 2 has a legal order of the pile.
    ensures legal { HasLegalOrder pile_spec (puts_and_takes 2) }
    // No table is closed for the book that puts in 1 and 2 and then takes the 2.
    ensures none { (layers : List Layer) (pairs : List (ℕ × List ℕ))
        → ¬ IsClosed pile (puts_and_takes 2) layers (IsAmong pairs) }
    // A table without the pair of the bottom and the cut of no call isn't closed for the book that
    // puts in 1 and 2 and then takes the 1.
    ensures start { ¬ IsClosed pile (puts_and_takes 1) one_below_two (IsAmong without_start) }
{}

/// Which unanswered calls don't change a list: a take doesn't change the empty list, and it changes
/// each other one; a put changes the empty list too.
pub fn an_unanswered_take_leaves_the_bottom_alone()
    // An unanswered take doesn't change the empty list.
    ensures bottom { LeavesTop pile unanswered None (record { caller = 0; number = 0 }) }
    // An unanswered take changes a list with a last item.
    ensures item { ¬ LeavesTop pile unanswered (Some 1) (record { caller = 0; number = 0 }) }
    // An unanswered put changes the empty list.
    ensures put { ¬ LeavesTop pile unanswered None (record { caller = 1; number = 0 }) }
    // An answered take never counts as a call that doesn't change the empty list, since only
    // unanswered calls do.
    ensures answered { ¬ LeavesTop pile taken_too_often None (record { caller = 0; number = 1 }) }
{}

/// A take leads to each level that may lie right below the item that it takes, not just to one of
/// them.
pub fn a_take_leads_to_each_level_below()
    // A take of an item that may lie on level 1 or on level 2 leads to a set of pairs that has each
    // of these levels with the cut after the take.
    ensures all { TakeLeads (IsAmong both_below) 3 (Some 1) (1 ∷ 2 ∷ []) (2 ∷ []) }
    // A take of an item that may lie on level 1 or on level 2 doesn't lead to a set of pairs that
    // has only level 1 with the cut after the take.
    ensures missing { ¬ TakeLeads (IsAmong one_below) 3 (Some 1) (1 ∷ 2 ∷ []) (2 ∷ []) }
    // A take at the bottom doesn't lead to a set of pairs that lacks the bottom with the cut after
    // the take.
    ensures bottom { ¬ TakeLeads (IsAmong one_below) 0 None [] (2 ∷ []) }
{}
