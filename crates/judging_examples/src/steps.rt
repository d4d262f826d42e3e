//! Steps that are worked by hand, also on lists that no run reaches.

ghost use Rattle.std.specs.Prelude.{◌≡◌, [], ◌∷◌, codes};
ghost use Rattle.seq_objects.specs.declared.kind.Kind.TheVariants as kinds;
ghost use Rattle.seq_objects.specs.Words.{Spells};
ghost use Rattle.seq_objects.specs.Objects.{kind_init};
ghost use Rattle.judging_examples.specs.Steps.{Makes};

/// Steps of a register. A list without an item reads as 0.
pub fn worked_register_steps()
    // The register begins with the list of 0 alone.
    ensures begins { kind_init kinds.Register ≡ 0 ∷ [] }
    // A write of 7 makes the list 7 alone, and the reply is done.
    ensures writes { Makes kinds.Register 4294967303 (codes "write 7")
        (4 ∷ 9 ∷ []) (7 ∷ []) (codes "done") }
    // A read at a list that begins with 4 doesn't change the list, and the reply is 4.
    ensures reads { Makes kinds.Register 8589934592 (codes "read")
        (4 ∷ 9 ∷ []) (4 ∷ 9 ∷ []) (codes "=4") }
    // A read at the empty list doesn't change it, and the reply is 0.
    ensures reads_an_empty_list { Makes kinds.Register 8589934592 (codes "read")
        [] [] (codes "=0") }
    // A read gives the low 32 bits of the list's first word.
    ensures reads_the_low_bits { Makes kinds.Register 8589934592 (codes "read")
        (4294967301 ∷ []) (4294967301 ∷ []) (codes "=5") }
    // A word that no entry has doesn't change the list, and the reply is `bad`.
    ensures leaves_an_unknown_word { Makes kinds.Register 12884901888 (codes "#12884901888")
        (4 ∷ []) (4 ∷ []) (codes "bad") }
{}

/// Steps of a counter. The count after 2^32 - 1 is 0.
pub fn worked_counter_steps()
    // The counter begins with the list of 0 alone.
    ensures begins { kind_init kinds.Counter ≡ 0 ∷ [] }
    // An increment at a list that begins with 5 makes the list 6 alone, and the reply is 5.
    ensures counts { Makes kinds.Counter 4294967296 (codes "inc")
        (5 ∷ 9 ∷ []) (6 ∷ []) (codes "=5") }
    // An increment at the empty list makes it 1, and the reply is 0.
    ensures counts_an_empty_list { Makes kinds.Counter 4294967296 (codes "inc")
        [] (1 ∷ []) (codes "=0") }
    // An increment at 2^32 - 1 makes the list 0 alone.
    ensures goes_on_with_zero { Makes kinds.Counter 4294967296 (codes "inc")
        (4294967295 ∷ []) (0 ∷ []) (codes "=4294967295") }
    // An increment counts on from the low 32 bits of the list's first word.
    ensures counts_the_low_bits { Makes kinds.Counter 4294967296 (codes "inc")
        (4294967298 ∷ []) (3 ∷ []) (codes "=2") }
    // An increment with an argument doesn't change the list, and the reply is `bad`.
    ensures leaves_an_argument { Makes kinds.Counter 4294967297 (codes "#4294967297")
        (4 ∷ []) (4 ∷ []) (codes "bad") }
    // A word that no entry has doesn't change the list, and the reply is `bad`.
    ensures leaves_an_unknown_word { Makes kinds.Counter 8589934592 (codes "#8589934592")
        (4 ∷ []) (4 ∷ []) (codes "bad") }
{}

/// Steps of a set. A value is put before the first greater item.
pub fn worked_set_steps()
    // The set begins with the empty list.
    ensures begins { kind_init kinds.IntSet ≡ [] }
    // An add puts a value that isn't in the list between a lesser and a greater item, and the reply
    // is yes.
    ensures adds_in_order { Makes kinds.IntSet 4294967299 (codes "add 3")
        (1 ∷ 5 ∷ []) (1 ∷ 3 ∷ 5 ∷ []) (codes "yes") }
    // A value is put before the first greater item, also in a list that doesn't rise.
    ensures adds_before_the_first_greater { Makes kinds.IntSet 4294967299 (codes "add 3")
        (2 ∷ 7 ∷ 1 ∷ []) (2 ∷ 3 ∷ 7 ∷ 1 ∷ []) (codes "yes") }
    // A value that is greater than all items is put at the end.
    ensures adds_at_the_end { Makes kinds.IntSet 4294967299 (codes "add 3")
        (2 ∷ []) (2 ∷ 3 ∷ []) (codes "yes") }
    // An add of a value that is in the list doesn't change the list, and the reply is no.
    ensures adds_nothing_twice { Makes kinds.IntSet 4294967299 (codes "add 3")
        (1 ∷ 3 ∷ []) (1 ∷ 3 ∷ []) (codes "no") }
    // A remove takes out the first of two equal items, and the reply is yes.
    ensures takes_out_the_first { Makes kinds.IntSet 8589934595 (codes "remove 3")
        (1 ∷ 3 ∷ 2 ∷ 3 ∷ []) (1 ∷ 2 ∷ 3 ∷ []) (codes "yes") }
    // A remove of a value that isn't in the list doesn't change the list, and the reply is no.
    ensures takes_out_none { Makes kinds.IntSet 8589934596 (codes "remove 4")
        (1 ∷ 3 ∷ []) (1 ∷ 3 ∷ []) (codes "no") }
    // The reply to `has` is yes for a value that is in the list.
    ensures has { Makes kinds.IntSet 12884901891 (codes "has 3")
        (1 ∷ 3 ∷ []) (1 ∷ 3 ∷ []) (codes "yes") }
    // The reply to `has` is no for a value that isn't in the list.
    ensures has_not { Makes kinds.IntSet 12884901892 (codes "has 4")
        (1 ∷ 3 ∷ []) (1 ∷ 3 ∷ []) (codes "no") }
    // The reply to `has` is no where only the low 32 bits of an item are the value.
    ensures has_not_by_the_low_bits { Makes kinds.IntSet 12884901891 (codes "has 3")
        (4294967299 ∷ []) (4294967299 ∷ []) (codes "no") }
    // A word that no entry has doesn't change the list, and the reply is `bad`.
    ensures leaves_an_unknown_word { Makes kinds.IntSet 17179869184 (codes "#17179869184")
        (4 ∷ []) (4 ∷ []) (codes "bad") }
{}

/// Steps of a priority queue. A value is put before the first greater item, and the first item is
/// taken out.
pub fn worked_pqueue_steps()
    // The priority queue begins with the empty list.
    ensures begins { kind_init kinds.Pqueue ≡ [] }
    // A value is put after an equal item and before a greater one.
    ensures inserts_in_order { Makes kinds.Pqueue 4294967300 (codes "insert 4")
        (2 ∷ 4 ∷ 6 ∷ []) (2 ∷ 4 ∷ 4 ∷ 6 ∷ []) (codes "done") }
    // A value is put before the first greater item, also in a list that doesn't rise.
    ensures inserts_before_the_first_greater { Makes kinds.Pqueue 4294967300 (codes "insert 4")
        (1 ∷ 6 ∷ 2 ∷ []) (1 ∷ 4 ∷ 6 ∷ 2 ∷ []) (codes "done") }
    // A value that is greater than all items is put at the end.
    ensures inserts_at_the_end { Makes kinds.Pqueue 4294967300 (codes "insert 4")
        (2 ∷ []) (2 ∷ 4 ∷ []) (codes "done") }
    // A take takes out the first item, also where a lesser one follows.
    ensures takes_the_first { Makes kinds.Pqueue 8589934592 (codes "min")
        (4 ∷ 2 ∷ []) (2 ∷ []) (codes "=4") }
    // A take gives the low 32 bits of the first item.
    ensures takes_the_low_bits { Makes kinds.Pqueue 8589934592 (codes "min")
        (4294967298 ∷ 9 ∷ []) (9 ∷ []) (codes "=2") }
    // A take at the empty list doesn't change it, and the reply is none.
    ensures takes_none { Makes kinds.Pqueue 8589934592 (codes "min") [] [] (codes "none") }
    // A word that no entry has doesn't change the list, and the reply is `bad`.
    ensures leaves_an_unknown_word { Makes kinds.Pqueue 12884901888 (codes "#12884901888")
        (4 ∷ []) (4 ∷ []) (codes "bad") }
{}

/// Steps of a queue: items come in at the end of the list, and are taken out at its beginning.
pub fn worked_queue_steps()
    // The queue begins with the empty list.
    ensures begins { kind_init kinds.Queue ≡ [] }
    // A put adds its value at the end, and the reply is done.
    ensures puts_at_the_end { Makes kinds.Queue 4294967303 (codes "enq 7")
        (4 ∷ 2 ∷ []) (4 ∷ 2 ∷ 7 ∷ []) (codes "done") }
    // A take takes out the first item.
    ensures takes_the_first { Makes kinds.Queue 8589934592 (codes "deq")
        (4 ∷ 2 ∷ 9 ∷ []) (2 ∷ 9 ∷ []) (codes "=4") }
    // A take gives the low 32 bits of the first item.
    ensures takes_the_low_bits { Makes kinds.Queue 8589934592 (codes "deq")
        (4294967298 ∷ 9 ∷ []) (9 ∷ []) (codes "=2") }
    // A take at the empty list doesn't change it, and the reply is none.
    ensures takes_none { Makes kinds.Queue 8589934592 (codes "deq") [] [] (codes "none") }
    // A word that no entry has doesn't change the list, and the reply is `bad`.
    ensures leaves_an_unknown_word { Makes kinds.Queue 12884901888 (codes "#12884901888")
        (4 ∷ []) (4 ∷ []) (codes "bad") }
{}

/// Steps of a stack: items come in at the end of the list, and are taken out at its end.
pub fn worked_stack_steps()
    // The stack begins with the empty list.
    ensures begins { kind_init kinds.Stack ≡ [] }
    // A put adds its value at the end, and the reply is done.
    ensures puts_at_the_end { Makes kinds.Stack 4294967303 (codes "push 7")
        (4 ∷ 2 ∷ []) (4 ∷ 2 ∷ 7 ∷ []) (codes "done") }
    // A take takes out the last item.
    ensures takes_the_last { Makes kinds.Stack 8589934592 (codes "pop")
        (4 ∷ 2 ∷ 9 ∷ []) (4 ∷ 2 ∷ []) (codes "=9") }
    // A take gives the low 32 bits of the last item.
    ensures takes_the_low_bits { Makes kinds.Stack 8589934592 (codes "pop")
        (9 ∷ 4294967298 ∷ []) (9 ∷ []) (codes "=2") }
    // A take at the empty list doesn't change it, and the reply is none.
    ensures takes_none { Makes kinds.Stack 8589934592 (codes "pop") [] [] (codes "none") }
    // A word that no entry has doesn't change the list, and the reply is `bad`.
    ensures leaves_an_unknown_word { Makes kinds.Stack 12884901888 (codes "#12884901888")
        (4 ∷ []) (4 ∷ []) (codes "bad") }
{}

/// Worked steps of a register with compare-and-set, also on lists that no run reaches.
pub fn worked_cas_register_steps()
    // The register begins with the list of 0 alone.
    ensures begins { kind_init kinds.CasRegister ≡ 0 ∷ [] }
    // Of the words `cas 0 5 6` the first three are read as an operation with two numbers, and the
    // last one is left.
    ensures is_read { Spells kinds.CasRegister
        (codes "cas" ∷ codes "0" ∷ codes "5" ∷ codes "6" ∷ [])
        92233720381432659968 2 }
    // A compare-and-set from 0 to 5 at the list of 0 makes it the list of 5, and replies yes.
    ensures sets { Makes kinds.CasRegister 92233720381432659968 (codes "cas 0 5")
        (0 ∷ []) (5 ∷ []) (codes "yes") }
    // A compare-and-set from 0 to 5 at the empty list makes it the list of 5, and replies yes.
    ensures sets_an_empty_list { Makes kinds.CasRegister 92233720381432659968 (codes "cas 0 5")
        [] (5 ∷ []) (codes "yes") }
    // A compare-and-set from 0 to 5 at a list that begins with 4 doesn't change the list, and
    // replies no.
    ensures keeps_another_value { Makes kinds.CasRegister 92233720381432659968 (codes "cas 0 5")
        (4 ∷ 0 ∷ []) (4 ∷ 0 ∷ []) (codes "no") }
    // A compare-and-set from 0 to 5 at a list that begins with 2^32 makes it the list of 5, and
    // replies yes, since only the low 32 bits are compared.
    ensures takes_the_low_bits { Makes kinds.CasRegister 92233720381432659968 (codes "cas 0 5")
        (4294967296 ∷ 9 ∷ []) (5 ∷ []) (codes "yes") }
    // A write of 7 makes the list 7 alone, and replies done.
    ensures writes { Makes kinds.CasRegister 4294967303 (codes "write 7")
        (4 ∷ 9 ∷ []) (7 ∷ []) (codes "done") }
    // A read at a list that begins with 4 doesn't change the list, and replies 4.
    ensures reads { Makes kinds.CasRegister 8589934592 (codes "read")
        (4 ∷ 9 ∷ []) (4 ∷ 9 ∷ []) (codes "=4") }
    // An operation word with the extra 2^32, which no entry allows, doesn't change the list, and
    // the reply is `bad`.
    ensures leaves_an_unknown_word { Makes kinds.CasRegister 79228162514264337606428852224
        (codes "#12884901888:4294967296")
        (4 ∷ []) (4 ∷ []) (codes "bad") }
{}

/// Worked steps of a map, also on lists that no run reaches. An item is its key times 2^32, plus
/// its value.
pub fn worked_map_steps()
    // The map begins with the empty list.
    ensures begins { kind_init kinds.Map ≡ [] }
    // An operation word of code 4, which no entry of a map has, doesn't change the list, and the
    // reply is `bad`.
    ensures leaves_an_unknown_low_word { Makes kinds.Map 17179869184 (codes "#17179869184")
        (4 ∷ []) (4 ∷ []) (codes "bad") }
    // A put of a key that no item has inserts an item between those of a lower and a greater key,
    // and replies none.
    ensures puts_in_order { Makes kinds.Map 4294967300 (codes "put 4 0")
        (8589934597 ∷ 34359738369 ∷ []) (8589934597 ∷ 17179869184 ∷ 34359738369 ∷ [])
        (codes "none") }
    // A put of a key that two items have changes the first of them, and replies its value.
    ensures puts_at_the_first_of_a_key { Makes kinds.Map 166020696667680931843 (codes "put 3 9")
        (12884901889 ∷ 12884901890 ∷ []) (12884901897 ∷ 12884901890 ∷ []) (codes "=1") }
    // A get of a key that two items have replies the value of the first of them.
    ensures gets_the_first_of_a_key { Makes kinds.Map 8589934595 (codes "get 3")
        (30064771072 ∷ 12884901889 ∷ 12884901890 ∷ [])
        (30064771072 ∷ 12884901889 ∷ 12884901890 ∷ []) (codes "=1") }
    // A get of a key that no item has replies none.
    ensures gets_none { Makes kinds.Map 8589934596 (codes "get 4")
        (12884901892 ∷ []) (12884901892 ∷ []) (codes "none") }
    // A delete of a key that two items have takes out the first of them, and replies its value.
    ensures takes_out_the_first_of_a_key { Makes kinds.Map 12884901891 (codes "del 3")
        (12884901889 ∷ 12884901890 ∷ []) (12884901890 ∷ []) (codes "=1") }
    // A delete of a key that no item has doesn't change the list, and replies none.
    ensures takes_out_none { Makes kinds.Map 12884901892 (codes "del 4")
        (12884901892 ∷ []) (12884901892 ∷ []) (codes "none") }
    // An operation word with the extra 2^32, which no entry allows, doesn't change the list, and
    // the reply is `bad`.
    ensures leaves_an_unknown_word { Makes kinds.Map 79228162514264337597838917635
        (codes "#4294967299:4294967296")
        (4 ∷ []) (4 ∷ []) (codes "bad") }
{}
