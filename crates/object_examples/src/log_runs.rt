//! Worked runs over the log inside the world: what the log's program allows, and what it refuses.

ghost use Rattle.std.specs.Prelude.{◌≡◌, [], ◌∷◌, IsTrue};
ghost use Rattle.world_core.specs.History.{Invoked, Returned, call_of, history_of};
ghost use Rattle.world_examples.specs.Schedules.{allows_in, refuses_in};
ghost use Rattle.world_core.specs.World.{IsRun, end_of, object_word};
ghost use Rattle.object_examples.specs.TallyRuns.{gets};
ghost use Rattle.object_examples.specs.LogRuns.{log_pair, log_alone, steps_at, first_operation, second_operation, announced, stored_low, stored, stored_both, placed_one, found_one, placed_both, loaded_low, loaded, replied, refused_as_announced, refused_as_stored_low, refused_as_stored, refused_as_placed_one, refused_as_found_one, refused_as_placed_both, refused_as_loaded_low, refused_as_loaded, refused_to_one, second_stored, two_calls_alone};

/// Two callers make one call each over one log. The second caller places its ticket first. The
/// first caller finds that ticket, places its own after it, loads the operation of the second one's
/// call, and replies 1, since there is one operation before its own.
pub fn two_callers_make_a_log()
    // The steps of two callers up to both replies are a run.
    ensures run { IsRun log_pair replied }
    // The first place of the log has the ticket of the second caller's call.
    ensures first_ticket { object_word log_pair (end_of log_pair replied) 4 ≡ 2 }
    // The second place of the log has the ticket of the first caller's call.
    ensures second_ticket { object_word log_pair (end_of log_pair replied) 5 ≡ 1 }
    // The history has both invocations and then both returns, where the first caller's reply counts
    // the other's call.
    ensures history { history_of log_pair replied ≡ Invoked (call_of 0 0) first_operation ∷ Invoked
        (call_of 1 0) second_operation ∷ Returned (call_of 0 0) 1 ∷ Returned (call_of 1 0) 0 ∷ [] }
{}

/// A caller that makes its second call knows its first one: it doesn't try for the place of its
/// first ticket, and loads nothing.
pub fn a_caller_knows_its_calls()
    // The steps of one caller that makes two calls are a run.
    ensures run { IsRun log_alone two_calls_alone }
    // A caller may not try for a place of the log that it has filled itself.
    ensures filled { IsTrue
        (refuses_in log_alone second_stored (steps_at 0 4 1 1 ∷ steps_at 0 4 1 2 ∷ [])) }
    // The history has two whole calls, of which the second counts the first.
    ensures history { history_of log_alone two_calls_alone
        ≡ Invoked (call_of 0 0) first_operation ∷ Returned (call_of 0 0) 0
        ∷ Invoked (call_of 0 1) second_operation ∷ Returned (call_of 0 1) 1 ∷ [] }
{}

/// A call stores the low and then the high word of its operation, each once, before it tries for a
/// place in the log.
pub fn words_are_stored_first()
    // A call that has only been announced may not store another low word, its high word first, or
    // its low word at another call's place; and it may neither place its ticket nor get a reply.
    ensures announced { IsTrue (refuses_in log_pair announced refused_as_announced) }
    // A call that has only been announced may store the low word of its operation.
    ensures low { IsTrue (allows_in log_pair announced (steps_at 0 0 0 5 ∷ [])) }
    // A call that has stored its low word alone may not store it again, store another high word, or
    // place its ticket.
    ensures stored_low { IsTrue (refuses_in log_pair stored_low refused_as_stored_low) }
    // A call that has stored its low word alone may store its high word.
    ensures high { IsTrue (allows_in log_pair stored_low (steps_at 0 1 0 8 ∷ [])) }
{}

/// A call tries for the first place of the log that its caller doesn't know to be filled, leaves a
/// ticket that it finds there, and places its own once.
pub fn places_are_tried_in_order()
    // A call that has stored both words may not store the high word again, try for a place past the
    // first, place another call's ticket, leave a free place free, load a word, or get a reply.
    ensures stored { IsTrue (refuses_in log_pair stored refused_as_stored) }
    // Each of two calls that have stored their words may try for the first place with its ticket.
    ensures first { IsTrue
        (allows_in log_pair stored_both (steps_at 0 4 0 1 ∷ steps_at 1 4 0 2 ∷ [])) }
    // A call may not put its ticket over another one, or past a place that its caller doesn't know
    // to be filled.
    ensures placed_one { IsTrue (refuses_in log_pair placed_one refused_as_placed_one) }
    // A call may not place its ticket twice, or get a reply that counts itself.
    ensures once { IsTrue (refuses_in log_pair placed_one refused_to_one) }
    // Where caller 1 has placed its ticket first, the call of caller 0 may find it and leave it,
    // and the call of caller 1 may get the reply 0.
    ensures finds { IsTrue (allows_in log_pair placed_one (steps_at 0 4 2 2 ∷ gets 1 1 0 ∷ [])) }
    // A call that found another one's ticket at a place may not try for this place again; and it
    // may neither load a word nor get a reply before its own ticket is placed.
    ensures found_one { IsTrue (refuses_in log_pair found_one refused_as_found_one) }
    // A call that found another one's ticket at the first place may try for the second.
    ensures next { IsTrue (allows_in log_pair found_one (steps_at 0 5 0 1 ∷ [])) }
{}

/// Once a call's ticket is placed, the call may load the operations of the tickets at lower places.
/// It gets its reply once all of them are known.
pub fn replies_come_last()
    // A call whose ticket is placed may not change a word as it loads it, load a word of its own,
    // try for its place again, or get a reply before it has loaded the operation before its own.
    ensures placed_both { IsTrue (refuses_in log_pair placed_both refused_as_placed_both) }
    // A call whose ticket is placed may load both words of the operation before its own.
    ensures loads { IsTrue
        (allows_in log_pair placed_both (steps_at 0 2 6 6 ∷ steps_at 0 3 9 9 ∷ [])) }
    // A call that has loaded only the low word of the operation before its own gets no reply.
    ensures loaded_low { IsTrue (refuses_in log_pair loaded_low refused_as_loaded_low) }
    // A call that has loaded the one operation before its own may get neither the reply 0 nor 2.
    ensures loaded { IsTrue (refuses_in log_pair loaded refused_as_loaded) }
    // A call that has loaded the one operation before its own may get the reply 1.
    ensures replies { IsTrue (allows_in log_pair loaded (gets 0 1 1 ∷ [])) }
{}
