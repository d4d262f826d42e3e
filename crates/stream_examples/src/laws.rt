//! Worked cases of streams. Each is the contract of a function with nothing in it.

ghost use Rattle.std.specs.Prelude.{[], ◌∷◌};
ghost use Rattle.streams.specs.Stream.{Called, Returned, IsValidStream};
ghost use Rattle.streams.specs.StreamOrder.{IsLegalStreamOrder, HasLegalStreamOrder};
ghost use Rattle.residue_laws.specs.Residue.{Configuration};
ghost use Rattle.residue_laws.specs.Step.{StepsTo};
ghost use Rattle.residue_laws.specs.Late.{IsInLateResidue};
ghost use Rattle.stream_examples.specs.Counted.{counter, incremented, crashed, both, lost_one, first_one, one_too_many, no_call, two_calls};

/// A process that lost an increment calls again, and finds that the lost one took effect.
pub fn a_lost_call_may_take_effect()
    // The stream is valid: after the loss the process may call again.
    ensures valid { IsValidStream crashed }
    // The order that places the lost call first is legal.
    ensures legal { IsLegalStreamOrder counter crashed both }
    // After it the lost call stays placed, and the count is 2.
    ensures late { IsInLateResidue counter crashed lost_one }
{}

/// A reply that the object can't give refutes a stream.
pub fn one_reply_refutes()
    // Where the only increment replies 1, the stream has no legal order.
    ensures illegal { HasLegalStreamOrder counter one_too_many → ⊥ }
    // A configuration at which a call is placed with the reply 0 has no step by its return with
    // the reply 1.
    ensures step { (after : Configuration)
        → StepsTo incremented (Called 7 1 ∷ []) (Returned 7 1) first_one after → ⊥ }
{}

/// Streams that aren't valid, and the least one that is.
pub fn some_streams_are_not_valid()
    // The empty stream is valid.
    ensures empty { IsValidStream [] }
    // A process that doesn't wait can't return.
    ensures idle { IsValidStream no_call → ⊥ }
    // A process that waits can't call.
    ensures busy { IsValidStream two_calls → ⊥ }
{}
