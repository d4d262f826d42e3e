//! Worked cases: what the definitions of told tables and of products say of small ones.

ghost use Rattle.std.specs.Prelude.{◌≡◌, ℕ, [], ◌∷◌, Contains, Vec};
ghost use Rattle.std.specs.declared.alloc.Global.{Global};
ghost use Rattle.book_base.specs.declared.TheConstants.{BAD};
ghost use Rattle.book_base.specs.declared.call.Place.{Place};
ghost use Rattle.book_base.specs.Book.{IsValid};
ghost use Rattle.book_base.specs.Order.{IsLegalOrder, HasLegalOrder};
ghost use Rattle.book_base.specs.Pruning.{HasOneOpen};
ghost use Rattle.told_models.specs.declared.answer.Answer.TheVariants.{Legal, Illegal, Ask};
ghost use Rattle.told_models.specs.declared.fault.TellFault.TheVariants.{Contradicts};
ghost use Rattle.told_models.specs.Table.{Extends, IsTellFault};
ghost use Rattle.told_models.specs.Agreement.{Agrees};
ghost use Rattle.told_models.specs.Completion.{completion};
ghost use Rattle.told_models.specs.Closed.{IsClosedTo, IsWordOf};
ghost use Rattle.told_models.specs.Dialogue.{word_lists};
ghost use Rattle.told_models.specs.Answers.{IsRightAnswer};
ghost use Rattle.locality.specs.Locality.{IsProduct, IsPartOfKey};
ghost use Rattle.model_examples.specs.Locks.{nothing_told, acquired, refused, twice, other_lock, two_calls, two_places, to};
ghost use Rattle.model_examples.specs.Counters.{side_key, side_list, side_counter, both_counters, first_part};
ghost use Rattle.model_examples.specs.OpenCalls.{crossed_calls, crossed_names, crossed_part};

/// A lock whose operation 1 acquires it: at the free state 0 the reply is 1, and at the held state
/// 1 it is 0. Both steps are asked for, and then the table is closed.
pub fn a_lock_is_told_step_by_step()
    // Before anything is told, the step at the free state is asked for.
    ensures first { IsRightAnswer nothing_told (two_calls 1 1 1 0) (Ask 0 1) }
    // The bound allows two asks.
    ensures bound { word_lists 1 2 ≡ 2 }
    // After the first step another one at the free state contradicts it.
    ensures contradicted { IsTellFault acquired 0 1 (to 0 1) (Contradicts (to 1 1)) }
    // The table with both steps extends the one with the first step.
    ensures extends { Extends acquired refused }
    // The table with both steps is closed under the operation word 1, to each depth.
    ensures closed { (most : ℕ) → IsClosedTo refused (Contains (1 ∷ [])) most }
    // Another object than the completion agrees with the table.
    ensures agrees { Agrees refused other_lock }
    // It differs from the completion at a list that is no state.
    ensures other { (completion refused).next (5 ∷ []) 1 ≡ other_lock.next (5 ∷ []) 1 → ⊥ }
    // A book in which one caller acquires the lock twice has only this operation word.
    ensures words { (op : ℕ) → IsWordOf (two_calls 1 1 1 0) op → Contains (1 ∷ []) op }
    // An order of this book is legal for that object, and so for each that agrees.
    ensures legal { IsLegalOrder other_lock (two_calls 1 1 1 0) (two_places 1 0) }
{}

/// Answers at the tables of the lock. One caller acquires the lock twice.
pub fn answers_about_a_lock()
    // After the first step the second one is asked for.
    ensures ask { IsRightAnswer acquired (two_calls 1 1 1 0) (Ask 1 1) }
    // At both steps the book is legal where the second call is refused.
    ensures legal { (order : Vec Place Global) → order.items ≡ two_places 1 0
        → IsRightAnswer refused (two_calls 1 1 1 0) (Legal order) }
    // It is illegal where both calls acquire the lock.
    ensures illegal { IsRightAnswer refused (two_calls 1 1 1 1) Illegal }
{}

/// Tables and locks that agree: two numbers may be one state's, and a table that isn't closed
/// decides nothing.
pub fn tables_that_are_not_closed_decide_nothing()
    // In a table in which the held state has two numbers, a lock with one held state agrees.
    ensures twice { Agrees twice other_lock }
    // The table with the first step alone isn't closed to two steps.
    ensures untold { IsClosedTo acquired (Contains (1 ∷ [])) 2 → ⊥ }
    // Two objects agree with it, its completion and the other lock.
    ensures agrees { Agrees acquired (completion acquired) × Agrees acquired other_lock }
    // An order in which the second call isn't known is legal for the completion.
    ensures legal { IsLegalOrder (completion acquired) (two_calls 1 1 1 BAD) (two_places 1 BAD) }
    // And the other lock has no legal order of this book.
    ensures illegal { HasLegalOrder other_lock (two_calls 1 1 1 BAD) → ⊥ }
{}

/// Two counters side by side, and a book in which one caller increments each of them once.
pub fn two_counters_are_a_product()
    // They are a product of counters.
    ensures product { IsProduct side_key side_list side_counter both_counters }
    // The part of the first counter's key has the first call alone.
    ensures part { IsPartOfKey side_key 0 (two_calls 0 0 1 0) ((0 ∷ []) ∷ []) first_part }
    // The two counters have a legal order of the book.
    ensures legal { HasLegalOrder both_counters (two_calls 0 0 1 0) }
{}

/// Two callers on two counters, crossed: the first caller's calls are unanswered, and both views
/// hold the first one alone. By locality the whole is legal, since each counter's part is.
pub fn crossed_calls_are_legal_by_locality()
    // The book is valid.
    ensures valid { IsValid (crossed_calls 1 0 1) }
    // Each view holds at most one unanswered call of each caller.
    ensures one_open { HasOneOpen (crossed_calls 1 0 1) }
    // The parts are those of the keys.
    ensures parts { (k : ℕ)
        → IsPartOfKey side_key k (crossed_calls 1 0 1) (crossed_names k) (crossed_part 1 0 1 k) }
    // The object of each key has a legal order of its part.
    ensures parts_legal { (k : ℕ) → HasLegalOrder (side_counter k) (crossed_part 1 0 1 k) }
    // The two counters have a legal order of the book.
    ensures legal { HasLegalOrder both_counters (crossed_calls 1 0 1) }
{}

/// Where the views hold both unanswered calls of the first caller, each counter's part is legal and
/// the whole isn't: the second call stands in each order, so that the first one does too, but the
/// first counter's replies leave no place for it.
pub fn locality_needs_one_open()
    // The book is valid.
    ensures valid { IsValid (crossed_calls 2 1 0) }
    // Not each view holds at most one unanswered call of each caller.
    ensures several { HasOneOpen (crossed_calls 2 1 0) → ⊥ }
    // The parts are those of the keys.
    ensures parts { (k : ℕ)
        → IsPartOfKey side_key k (crossed_calls 2 1 0) (crossed_names k) (crossed_part 2 1 0 k) }
    // The object of each key has a legal order of its part.
    ensures parts_legal { (k : ℕ) → HasLegalOrder (side_counter k) (crossed_part 2 1 0 k) }
    // The two counters have no legal order of the book.
    ensures illegal { HasLegalOrder both_counters (crossed_calls 2 1 0) → ⊥ }
{}
