//! Worked cases: for rules of objects a book that breaks each, and one that doesn't.

ghost use Rattle.std.specs.Prelude.{[], ◌∷◌};
ghost use Rattle.seq_objects.specs.declared.kind.Kind.TheVariants as kinds;
ghost use Rattle.seq_objects.specs.Replies.{reply_done, reply_value};
ghost use Rattle.seq_objects.specs.Words as words;
ghost use Rattle.broken_rules.specs.declared.rule.Rule.TheVariants as rules;
ghost use Rattle.broken_rules.specs.Rules.{Breaks};
ghost use Rattle.judging_examples.specs.Runs.{operation};
ghost use Rattle.judging_examples.specs.SmallObjects.{call_of};
ghost use Rattle.judging_examples.specs.RuleBooks.{broken_by, take_and_put, look_and_add};
ghost use Rattle.judging_examples.specs.RuleBooks.{put_and_nothing, puts_and_take, puts_and_takes};
ghost use Rattle.judging_examples.specs.RuleBooks.{one_put, one_increment, two_increments, increments_in_turn};

/// A reply is one that the object gives to the operation at some list.
pub fn replies_are_possible()
    // A put that replies a value breaks the rule.
    ensures never { Breaks kinds.Queue (one_put (reply_value 5))
        (broken_by rules.NeverReplied (call_of 0 0) (call_of 0 0)) }
    // A put that replies `done` doesn't break the rule.
    ensures done { ¬ Breaks kinds.Queue (one_put reply_done)
        (broken_by rules.NeverReplied (call_of 0 0) (call_of 0 0)) }
{}

/// What is taken, read or found was put in before: a view that holds the put makes the difference.
pub fn values_come_from_puts()
    // A queue's take whose view lacks the only put of its value breaks the rule.
    ensures taken { Breaks kinds.Queue (take_and_put words.enq words.deq (1 ∷ 0 ∷ []))
        (broken_by rules.TakenUnput (call_of 0 0) (call_of 0 0)) }
    // A queue's take whose view holds the put of its value doesn't break the rule.
    ensures put { ¬ Breaks kinds.Queue (take_and_put words.enq words.deq (1 ∷ 1 ∷ []))
        (broken_by rules.TakenUnput (call_of 0 0) (call_of 0 0)) }
    // A read whose view lacks the only write of its value breaks the rule.
    ensures read { Breaks kinds.Register (take_and_put words.write words.read (1 ∷ 0 ∷ []))
        (broken_by rules.ReadUnwritten (call_of 0 0) (call_of 0 0)) }
    // A read whose view holds the write of its value doesn't break the rule.
    ensures written { ¬ Breaks kinds.Register (take_and_put words.write words.read (1 ∷ 1 ∷ []))
        (broken_by rules.ReadUnwritten (call_of 0 0) (call_of 0 0)) }
    // A call that finds a key in a set, and whose view lacks the only addition, breaks the rule.
    ensures found { Breaks kinds.IntSet (look_and_add (1 ∷ 0 ∷ []))
        (broken_by rules.FoundUnput (call_of 0 0) (call_of 0 0)) }
    // A call that finds a key in a set, and whose view holds the addition, doesn't break the rule.
    ensures added { ¬ Breaks kinds.IntSet (look_and_add (1 ∷ 1 ∷ []))
        (broken_by rules.FoundUnput (call_of 0 0) (call_of 0 0)) }
{}

/// A take finds what is there.
pub fn takes_find_values()
    // A take that finds nothing after a put, while no call takes the value, breaks the rule.
    ensures after { Breaks kinds.Queue (put_and_nothing (1 ∷ 0 ∷ []) (operation words.enq 6))
        (broken_by rules.FoundNothing (call_of 0 0) (call_of 1 0)) }
    // A take that finds nothing and that the view of the put holds doesn't break the rule.
    ensures meanwhile { ¬ Breaks kinds.Queue
        (put_and_nothing (1 ∷ 1 ∷ []) (operation words.enq 6))
        (broken_by rules.FoundNothing (call_of 0 0) (call_of 1 0)) }
    // Where a take without an answer may have taken the value, the rule isn't broken.
    ensures unanswered { ¬ Breaks kinds.Queue
        (put_and_nothing (1 ∷ 0 ∷ []) (operation words.deq 0))
        (broken_by rules.FoundNothing (call_of 0 0) (call_of 1 0)) }
{}

/// What is put in once is taken once.
pub fn values_are_taken_once()
    // Two takes of the value that one call put in break the rule.
    ensures twice { Breaks kinds.Queue (puts_and_takes 6 5)
        (broken_by rules.TakenTwice (call_of 0 0) (call_of 1 0)) }
    // A value that one call put in and one call takes doesn't break the rule.
    ensures once { ¬ Breaks kinds.Queue (puts_and_takes 6 6)
        (broken_by rules.TakenTwice (call_of 0 0) (call_of 1 0)) }
    // Two takes of a value that two calls put in don't break the rule.
    ensures put_twice { ¬ Breaks kinds.Queue (puts_and_takes 5 5)
        (broken_by rules.TakenTwice (call_of 0 0) (call_of 1 0)) }
{}

/// A queue gives what was put in first, a stack what was put in last, and a priority queue the
/// least of what was put in.
pub fn values_are_taken_in_order()
    // A queue's take of what was put in later breaks the rule.
    ensures passed_over { Breaks kinds.Queue
        (puts_and_take words.enq words.deq 6 (operation words.enq 7))
        (broken_by rules.PassedOver (call_of 0 0) (call_of 1 0)) }
    // A queue's take of what was put in first doesn't break the rule.
    ensures first { ¬ Breaks kinds.Queue
        (puts_and_take words.enq words.deq 5 (operation words.enq 7))
        (broken_by rules.PassedOver (call_of 0 0) (call_of 1 0)) }
    // Where a take without an answer may have taken what a queue got first, the rule isn't broken.
    ensures first_gone { ¬ Breaks kinds.Queue
        (puts_and_take words.enq words.deq 6 (operation words.deq 0))
        (broken_by rules.PassedOver (call_of 0 0) (call_of 1 0)) }
    // A stack doesn't keep the rule of queues.
    ensures no_queue { ¬ Breaks kinds.Stack
        (puts_and_take words.push words.pop 6 (operation words.push 7))
        (broken_by rules.PassedOver (call_of 0 0) (call_of 1 0)) }
    // A stack's take of what lies under a value that was put in later breaks the rule.
    ensures from_under { Breaks kinds.Stack
        (puts_and_take words.push words.pop 5 (operation words.push 7))
        (broken_by rules.TakenFromUnder (call_of 0 1) (call_of 1 0)) }
    // A stack's take of what was put in last doesn't break the rule.
    ensures last { ¬ Breaks kinds.Stack
        (puts_and_take words.push words.pop 6 (operation words.push 7))
        (broken_by rules.TakenFromUnder (call_of 0 0) (call_of 1 0)) }
    // Where a take without an answer may have taken what lay above, the rule isn't broken.
    ensures above_gone { ¬ Breaks kinds.Stack
        (puts_and_take words.push words.pop 5 (operation words.pop 0))
        (broken_by rules.TakenFromUnder (call_of 0 1) (call_of 1 0)) }
    // A priority queue's take of a value that is greater than one that is there breaks the rule.
    ensures lesser_left { Breaks kinds.Pqueue
        (puts_and_take words.insert words.min 6 (operation words.insert 7))
        (broken_by rules.LesserLeft (call_of 0 0) (call_of 1 0)) }
    // A priority queue's take of the least value doesn't break the rule.
    ensures least { ¬ Breaks kinds.Pqueue
        (puts_and_take words.insert words.min 5 (operation words.insert 7))
        (broken_by rules.LesserLeft (call_of 0 1) (call_of 1 0)) }
    // A value isn't less than itself.
    ensures equal { ¬ Breaks kinds.Pqueue
        (puts_and_take words.insert words.min 5 (operation words.insert 7))
        (broken_by rules.LesserLeft (call_of 0 0) (call_of 1 0)) }
    // Where a take without an answer may have taken the lesser value, the rule isn't broken.
    ensures lesser_gone { ¬ Breaks kinds.Pqueue
        (puts_and_take words.insert words.min 6 (operation words.min 0))
        (broken_by rules.LesserLeft (call_of 0 0) (call_of 1 0)) }
{}

/// A read gives what no later write has written over.
pub fn the_last_write_is_read()
    // A read of what was written before a later write breaks the rule.
    ensures overwritten { Breaks kinds.Register
        (puts_and_take words.write words.read 5 (operation words.write 7))
        (broken_by rules.ReadOverwritten (call_of 0 1) (call_of 1 0)) }
    // A read of what was written last doesn't break the rule.
    ensures last { ¬ Breaks kinds.Register
        (puts_and_take words.write words.read 6 (operation words.write 7))
        (broken_by rules.ReadOverwritten (call_of 0 0) (call_of 1 0)) }
    // Where a write without an answer may have written the value anew, the rule isn't broken.
    ensures anew { ¬ Breaks kinds.Register
        (puts_and_take words.write words.read 5 (operation words.write 5))
        (broken_by rules.ReadOverwritten (call_of 0 1) (call_of 1 0)) }
{}

/// A counter counts the increments before a call, each once.
pub fn counts_go_up()
    // A lone increment that replies 1 counts one that no view holds.
    ensures unseen { Breaks kinds.Counter (one_increment 1)
        (broken_by rules.CountedUnseen (call_of 0 0) (call_of 0 0)) }
    // A lone increment that replies 0 counts none.
    ensures none { ¬ Breaks kinds.Counter (one_increment 0)
        (broken_by rules.CountedUnseen (call_of 0 0) (call_of 0 0)) }
    // Two increments that reply 0 break the rule.
    ensures twice { Breaks kinds.Counter (two_increments 0)
        (broken_by rules.CountedTwice (call_of 0 0) (call_of 1 0)) }
    // Two increments that reply 0 and 1 don't break the rule.
    ensures once { ¬ Breaks kinds.Counter (two_increments 1)
        (broken_by rules.CountedTwice (call_of 0 0) (call_of 1 0)) }
    // An increment alone isn't two that reply the same count.
    ensures itself { ¬ Breaks kinds.Counter (two_increments 1)
        (broken_by rules.CountedTwice (call_of 0 0) (call_of 0 0)) }
    // A count of 0 after a count of 1 breaks the rule.
    ensures down { Breaks kinds.Counter (increments_in_turn 0)
        (broken_by rules.CountedDown (call_of 0 0) (call_of 0 1)) }
    // A count of 2 after a count of 1 doesn't break the rule.
    ensures up { ¬ Breaks kinds.Counter (increments_in_turn 2)
        (broken_by rules.CountedDown (call_of 0 0) (call_of 0 1)) }
{}
