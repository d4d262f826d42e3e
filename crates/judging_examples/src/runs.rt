//! Runs of six kinds that are worked by hand, and lists of operations with replies that are no
//! runs: each has a reply that the object doesn't give after the operations before it.

ghost use Rattle.std.specs.Prelude.{[], ◌∷◌};
ghost use Rattle.seq_objects.specs.declared.kind.Kind.TheVariants as kinds;
ghost use Rattle.seq_objects.specs.Words as words;
ghost use Rattle.seq_objects.specs.Replies.{reply_done, reply_none, reply_value, reply_no, reply_yes, reply_bad};
ghost use Rattle.broken_rules.specs.Runs.{IsRunOfKind};
ghost use Rattle.judging_examples.specs.Runs.{operation};

/// Runs of a queue: two values come out in their order, and then none.
pub fn runs_of_a_queue()
    // Two values that are put in come out in their order, and then none.
    ensures run { IsRunOfKind kinds.Queue ((operation words.enq 1, reply_done)
        ∷ (operation words.enq 2, reply_done) ∷ (operation words.deq 0, reply_value 1)
        ∷ (operation words.deq 0, reply_value 2) ∷ (operation words.deq 0, reply_none) ∷ []) }
    // A value that was put in second doesn't come out first.
    ensures last_first { ¬ IsRunOfKind kinds.Queue ((operation words.enq 1, reply_done)
        ∷ (operation words.enq 2, reply_done) ∷ (operation words.deq 0, reply_value 2) ∷ []) }
    // A value that was put in once doesn't come out twice.
    ensures twice { ¬ IsRunOfKind kinds.Queue ((operation words.enq 1, reply_done)
        ∷ (operation words.deq 0, reply_value 1) ∷ (operation words.deq 0, reply_value 1) ∷ []) }
    // A value that was never put in doesn't come out.
    ensures never_put { ¬ IsRunOfKind kinds.Queue ((operation words.deq 0, reply_value 0) ∷ []) }
{}

/// Runs of a stack: two values come out in the reverse of their order, and then none.
pub fn runs_of_a_stack()
    // Two values that are put in come out in the reverse of their order, and then none.
    ensures run { IsRunOfKind kinds.Stack ((operation words.push 1, reply_done)
        ∷ (operation words.push 2, reply_done) ∷ (operation words.pop 0, reply_value 2)
        ∷ (operation words.pop 0, reply_value 1) ∷ (operation words.pop 0, reply_none) ∷ []) }
    // Of two values that are put in, the first one doesn't come out first.
    ensures first_first { ¬ IsRunOfKind kinds.Stack ((operation words.push 1, reply_done)
        ∷ (operation words.push 2, reply_done) ∷ (operation words.pop 0, reply_value 1) ∷ []) }
    // A value that was put in once doesn't come out twice.
    ensures twice { ¬ IsRunOfKind kinds.Stack ((operation words.push 1, reply_done)
        ∷ (operation words.pop 0, reply_value 1) ∷ (operation words.pop 0, reply_value 1) ∷ []) }
{}

/// Runs of a register: a read gives 0 before the write, and then what was written.
pub fn runs_of_a_register()
    // A read before the write gives 0, and one after it the value written.
    ensures run { IsRunOfKind kinds.Register ((operation words.read 0, reply_value 0)
        ∷ (operation words.write 9, reply_done) ∷ (operation words.read 0, reply_value 9) ∷ []) }
    // A read doesn't give a value that was overwritten.
    ensures overwritten { ¬ IsRunOfKind kinds.Register ((operation words.write 9, reply_done)
        ∷ (operation words.write 8, reply_done) ∷ (operation words.read 0, reply_value 9) ∷ []) }
    // A read doesn't give a value that is written afterwards.
    ensures not_yet { ¬ IsRunOfKind kinds.Register ((operation words.read 0, reply_value 9)
        ∷ (operation words.write 9, reply_done) ∷ []) }
    // A second read after a write of 9 doesn't give 0.
    ensures not_kept { ¬ IsRunOfKind kinds.Register ((operation words.write 9, reply_done)
        ∷ (operation words.read 0, reply_value 9) ∷ (operation words.read 0, reply_value 0) ∷ []) }
{}

/// Runs of a counter: each increment gives the count before it.
pub fn runs_of_a_counter()
    // Three increments give 0, 1 and 2.
    ensures run { IsRunOfKind kinds.Counter ((operation words.inc 0, reply_value 0)
        ∷ (operation words.inc 0, reply_value 1) ∷ (operation words.inc 0, reply_value 2) ∷ []) }
    // An operation that the counter doesn't know has the reply `bad`, and isn't counted.
    ensures unknown { IsRunOfKind kinds.Counter ((operation words.read 0, reply_bad)
        ∷ (operation words.inc 0, reply_value 0) ∷ []) }
    // Two increments don't give the same count.
    ensures same_twice { ¬ IsRunOfKind kinds.Counter ((operation words.inc 0, reply_value 0)
        ∷ (operation words.inc 0, reply_value 0) ∷ []) }
    // No increment skips a count.
    ensures one_left_out { ¬ IsRunOfKind kinds.Counter ((operation words.inc 0, reply_value 0)
        ∷ (operation words.inc 0, reply_value 2) ∷ []) }
    // The first increment doesn't give 1.
    ensures from_one { ¬ IsRunOfKind kinds.Counter ((operation words.inc 0, reply_value 1) ∷ []) }
{}

/// Runs of a set: a value is in the set from an add of it to a remove of it.
pub fn runs_of_a_set()
    // A value is in the set from its first add to its first remove.
    ensures run { IsRunOfKind kinds.IntSet ((operation words.add 3, reply_yes)
        ∷ (operation words.add 3, reply_no) ∷ (operation words.has 3, reply_yes)
        ∷ (operation words.remove 3, reply_yes) ∷ (operation words.remove 3, reply_no)
        ∷ (operation words.has 3, reply_no) ∷ []) }
    // An add of one value doesn't put another value in.
    ensures other { ¬ IsRunOfKind kinds.IntSet ((operation words.add 3, reply_yes)
        ∷ (operation words.has 4, reply_yes) ∷ []) }
    // The reply to a second add of a value isn't yes.
    ensures added_twice { ¬ IsRunOfKind kinds.IntSet ((operation words.add 3, reply_yes)
        ∷ (operation words.add 3, reply_yes) ∷ []) }
    // A value that was added twice isn't in the set after one remove.
    ensures stays_once { ¬ IsRunOfKind kinds.IntSet ((operation words.add 3, reply_yes)
        ∷ (operation words.add 3, reply_no) ∷ (operation words.remove 3, reply_yes)
        ∷ (operation words.has 3, reply_yes) ∷ []) }
    // A value that was never added isn't in the set.
    ensures never_added { ¬ IsRunOfKind kinds.IntSet ((operation words.has 3, reply_yes) ∷ []) }
{}

/// Runs of a priority queue: values come out with the least first, each as often as it was put in.
pub fn runs_of_a_pqueue()
    // Values come out with the least first, each as often as it was put in, and then none.
    ensures run { IsRunOfKind kinds.Pqueue ((operation words.insert 4, reply_done)
        ∷ (operation words.insert 2, reply_done) ∷ (operation words.insert 4, reply_done)
        ∷ (operation words.min 0, reply_value 2) ∷ (operation words.min 0, reply_value 4)
        ∷ (operation words.min 0, reply_value 4) ∷ (operation words.min 0, reply_none) ∷ []) }
    // A greater value doesn't come out before a lesser one.
    ensures greater_first { ¬ IsRunOfKind kinds.Pqueue ((operation words.insert 4, reply_done)
        ∷ (operation words.insert 2, reply_done) ∷ (operation words.min 0, reply_value 4) ∷ []) }
    // A value that was put in once doesn't come out twice.
    ensures twice { ¬ IsRunOfKind kinds.Pqueue ((operation words.insert 2, reply_done)
        ∷ (operation words.min 0, reply_value 2) ∷ (operation words.min 0, reply_value 2) ∷ []) }
    // A value that was put in twice isn't gone after it came out once.
    ensures left_after { ¬ IsRunOfKind kinds.Pqueue ((operation words.insert 2, reply_done)
        ∷ (operation words.insert 2, reply_done) ∷ (operation words.min 0, reply_value 2)
        ∷ (operation words.min 0, reply_none) ∷ []) }
{}
