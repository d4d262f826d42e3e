//! Worked cases: how joins are served, at lists that are written out.

ghost use Rattle.std.specs.Prelude.{◌≡◌, [], ◌∷◌, Some};
ghost use Rattle.seq_objects.specs.Replies.{reply_bad, reply_value};
ghost use Rattle.set_order.specs.Joins.{served_joins, HasMask};
ghost use Rattle.judging_examples.specs.Joins.{join};

/// Joins that are served at once all reply with all joined numbers. The list becomes the mask of
/// these numbers, which begins with the low half of the list's first word, or without numbers where
/// the list is empty. An operation that joins nothing changes neither the list nor the mask.
pub fn joins_are_served_at_once()
    // A join of 3 at the empty list gives the mask 8, and replies with it.
    ensures empty_list { served_joins [] (join 3 ∷ []) ≡ Some (8 ∷ [], reply_value 8 ∷ []) }
    // Joins of 0 and 31 at once give the mask with both bits, and each replies with it.
    ensures two { served_joins (0 ∷ []) (join 0 ∷ join 31 ∷ [])
        ≡ Some (2147483649 ∷ [], reply_value 2147483649 ∷ reply_value 2147483649 ∷ []) }
    // A join of a number that is joined already doesn't change the mask 6, and replies with it.
    ensures again { served_joins (6 ∷ []) (join 1 ∷ []) ≡ Some (6 ∷ [], reply_value 6 ∷ []) }
    // A join at a list of two words begins with the low half of the first one, and makes the list
    // one word.
    ensures low_half { served_joins (4294967302 ∷ 9 ∷ []) (join 0 ∷ [])
        ≡ Some (7 ∷ [], reply_value 7 ∷ []) }
    // At the mask 6, operations that join nothing beside a join of 0 reply `bad`, and the join
    // replies with the mask 7.
    ensures beside { served_joins (6 ∷ []) (4294967328 ∷ join 0 ∷ 4294967295 ∷ [])
        ≡ Some (7 ∷ [], reply_bad ∷ reply_value 7 ∷ reply_bad ∷ []) }
    // An operation that joins nothing doesn't change a list of two words, and replies `bad`.
    ensures alone { served_joins (6 ∷ 9 ∷ []) (4294967328 ∷ [])
        ≡ Some (6 ∷ 9 ∷ [], reply_bad ∷ []) }
    // Without operations the list doesn't change, and there are no replies.
    ensures none { served_joins (6 ∷ 9 ∷ []) [] ≡ Some (6 ∷ 9 ∷ [], []) }
{}

/// A reply has the numbers of a mask where it gives all of them, and maybe more. A reply word that
/// gives no mask has the numbers of no mask.
pub fn replies_have_masks()
    // The reply with the value 6 has the numbers of the mask 6.
    ensures same { HasMask (reply_value 6) 6 }
    // The reply with the value 7 has the numbers of the mask 6, and one more.
    ensures more { HasMask (reply_value 7) 6 }
    // The reply with the value 5 lacks a number of the mask 6.
    ensures others { ¬ HasMask (reply_value 5) 6 }
    // A reply word with another tag lacks the numbers of the mask 6, also where its low half has
    // them.
    ensures gives_none { ¬ HasMask 12884901895 6 }
    // The reply `bad` doesn't even have the numbers of the empty mask.
    ensures bad { ¬ HasMask reply_bad 0 }
{}
