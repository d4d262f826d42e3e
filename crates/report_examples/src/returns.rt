//! Worked cases: which phases a caller that is back has made.

ghost use Rattle.std.specs.Prelude.{[], ◌∷◌};
ghost use Rattle.report_examples.specs.Returns.{in_second_call, with_object_step, silent_pass, pass_of, IsBackAfter};

/// A caller that is back in its second call has made six phases where that call is announced, and
/// seven where the object was asked for it. It isn't back after six phases where it was given
/// fewer, where a call has another operation than it was given, where the record of its first call
/// isn't published, where its second call has an object step, or where the object was asked twice.
pub fn callers_are_back_after_their_phases()
    // A caller in its second call whose pass tells of its first call alone has made 6 of 6 phases.
    ensures announced { IsBackAfter 6 6 (in_second_call 7 1) (pass_of ((5, 50) ∷ [])) }
    // A caller in its second call whose pass tells of both calls has made 7 of 7 phases.
    ensures asked { IsBackAfter 7 7 (in_second_call 7 1) (pass_of ((5, 50) ∷ (7, 4) ∷ [])) }
    // A caller that was given 10 phases has made 6 of them, where the object was asked once with
    // its pass, which tells of no call.
    ensures given_more { IsBackAfter 10 6 (in_second_call 7 1) (silent_pass 1) }
    // A caller that was given 5 phases hasn't made 6.
    ensures given_fewer { ¬ IsBackAfter 5 6 (in_second_call 7 1) (silent_pass 1) }
    // A caller whose second call has no view hasn't made 8 phases.
    ensures not_viewed { ¬ IsBackAfter 10 8 (in_second_call 7 1) (silent_pass 2) }
    // A caller whose second call is announced hasn't made just 5 phases.
    ensures not_announced { ¬ IsBackAfter 10 5 (in_second_call 7 1) (silent_pass 1) }
    // A caller whose second call has another operation than it was given hasn't made 6 phases.
    ensures another_operation { ¬ IsBackAfter 10 6 (in_second_call 8 1) (silent_pass 1) }
    // A caller that has published no record hasn't made 6 phases.
    ensures unpublished { ¬ IsBackAfter 10 6 (in_second_call 7 0) (silent_pass 1) }
    // A caller whose second call has an object step hasn't made just 6 phases.
    ensures a_step_before_it_asked { ¬ IsBackAfter 6 6 (with_object_step (in_second_call 7 1))
        (pass_of ((5, 50) ∷ [])) }
    // A caller with whose pass the object was asked twice hasn't made just 6 phases.
    ensures asked_too_soon { ¬ IsBackAfter 6 6 (in_second_call 7 1) (silent_pass 2) }
{}
