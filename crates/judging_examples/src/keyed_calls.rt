//! Worked cases: what calls of sets and maps did with their keys, and how many calls a view holds.

ghost use Rattle.std.specs.Prelude.{◌≡◌};
ghost use Rattle.legal_orders.specs.Deals as deals;
ghost use Rattle.seq_objects.specs.declared.kind.Kind.TheVariants as kinds;
ghost use Rattle.broken_rules.specs.Deeds.{did};
ghost use Rattle.broken_rules.specs.Rules.{SeesAtMost};
ghost use Rattle.judging_examples.specs.KeyedCalls.{of_a_set, of_a_map, of_a_counter};

/// A call of a set counts as a take of its value where it found the value there, and as a put where
/// it added the value.
pub fn calls_of_a_set()
    // An `add` that replies yes puts its value in.
    ensures adds { did kinds.IntSet of_a_set (record { caller = 0; number = 0 }) ≡ deals.Put 3 }
    // An `add` that replies no found its value, and counts as a take of it.
    ensures adds_again { did kinds.IntSet of_a_set (record { caller = 0; number = 1 })
        ≡ deals.Took 3 }
    // A `has` that replies yes found its value, and counts as a take of it.
    ensures looks { did kinds.IntSet of_a_set (record { caller = 0; number = 2 })
        ≡ deals.Took 3 }
    // A `has` that replies no neither puts in nor takes.
    ensures misses { did kinds.IntSet of_a_set (record { caller = 0; number = 3 })
        ≡ deals.Other }
    // A `remove` that replies yes found its value, and counts as a take of it.
    ensures removes { did kinds.IntSet of_a_set (record { caller = 0; number = 4 })
        ≡ deals.Took 3 }
    // A `remove` that replies no neither puts in nor takes.
    ensures removes_again { did kinds.IntSet of_a_set (record { caller = 0; number = 5 })
        ≡ deals.Other }
    // An `add` without an answer counts as a put of its value.
    ensures unanswered { did kinds.IntSet of_a_set (record { caller = 0; number = 6 })
        ≡ deals.Put 5 }
{}

/// A call of a map counts as a take of its key where it found the key there, and as a put where it
/// added the key.
pub fn calls_of_a_map()
    // A `put` that replies none puts its key in.
    ensures puts { did kinds.Map of_a_map (record { caller = 0; number = 0 }) ≡ deals.Put 3 }
    // A `put` that replies a value found its key, and counts as a take of it.
    ensures replaces { did kinds.Map of_a_map (record { caller = 0; number = 1 }) ≡ deals.Took 3 }
    // A `get` that replies a value found its key, and counts as a take of it.
    ensures gets { did kinds.Map of_a_map (record { caller = 0; number = 2 }) ≡ deals.Took 3 }
    // A `get` that replies none neither puts in nor takes.
    ensures misses { did kinds.Map of_a_map (record { caller = 0; number = 3 }) ≡ deals.Other }
    // A `del` that replies a value found its key, and counts as a take of it.
    ensures deletes { did kinds.Map of_a_map (record { caller = 0; number = 4 }) ≡ deals.Took 3 }
    // A `get` without an answer neither puts in nor takes.
    ensures unanswered { did kinds.Map of_a_map (record { caller = 0; number = 5 })
        ≡ deals.Other }
{}

/// A view holds the calls of all callers that it counts, those without an answer among them.
pub fn calls_of_a_view()
    // The view of caller 0's call holds at most three calls.
    ensures three { SeesAtMost of_a_counter (record { caller = 0; number = 0 }) 3 }
    // The view of caller 0's call doesn't hold at most two calls.
    ensures two { ¬ SeesAtMost of_a_counter (record { caller = 0; number = 0 }) 2 }
    // A call without an answer has no view.
    ensures none { ¬ SeesAtMost of_a_counter (record { caller = 1; number = 0 }) 9 }
{}
