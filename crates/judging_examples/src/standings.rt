//! Worked cases: which lists of standings are closed.

ghost use Rattle.std.specs.Prelude.{List, [], ◌∷◌};
ghost use Rattle.queue_pairs.specs.Pairs.{Paired, none_paired};
ghost use Rattle.queue_refutation.specs.Closed.{IsOnePaired, AreClosed};
ghost use Rattle.judging_examples.specs.SmallObjects.{sample};
ghost use Rattle.judging_examples.specs.Standings.{unput_take, put_then_take};

/// The standing that covers no call is closed where the only call takes what nobody put in. No
/// closed list has this standing where a put and a take of its value are a pair.
pub fn closed_standings()
    // In a book whose only call takes what nobody put in, the standing that covers no call is a
    // closed list.
    ensures unput { AreClosed sample unput_take (none_paired 1 ∷ []) }
    // In a book of a put and a take of its value, a list with the standing that covers no call
    // isn't closed.
    ensures paired { (standings : List Paired) → IsOnePaired standings (none_paired 1)
        → ¬ AreClosed sample put_then_take standings }
{}
