//! Worked runs over the tally and the cell: what their programs allow, and what they refuse.

ghost use Rattle.std.specs.Prelude.{◌≡◌, [], ◌∷◌, IsTrue};
ghost use Rattle.world_core.specs.History.{Invoked, Returned, call_of, history_of};
ghost use Rattle.world_examples.specs.Schedules.{allows_in, refuses_in};
ghost use Rattle.world_core.specs.World.{IsRun, end_of, object_word};
ghost use Rattle.object_examples.specs.TallyRuns.{tally_pair, tally_alone, cell_pair, increment, write_nine, read, done, value, bad, finds_and_leaves, gets, both_increments, counted_by_second, counted_by_both, counted_alone, refused_before_adding, refused_after_adding, unknown_announced, refused_to_unknown, write_and_read, written, written_and_read, refused_before_writing, refused_after_writing};

/// Two callers increment a tally at once, and one caller a tally of its own. An increment adds 1
/// once and then replies the word that it found. It can't reply before it has added, add twice,
/// leave another sum, or reply the word that it left.
pub fn increments_are_counted()
    // The steps of two callers that increment at once are a run.
    ensures run { IsRun tally_pair counted_by_both }
    // The word of the tally is 2 after both increments.
    ensures word { object_word tally_pair (end_of tally_pair counted_by_both) 0 ≡ 2 }
    // The history has both invocations and then both returns, with the values 1 and 0.
    ensures history { history_of tally_pair counted_by_both
        ≡ Invoked (call_of 0 0) increment ∷ Invoked (call_of 1 0) increment
        ∷ Returned (call_of 0 0) (value 1) ∷ Returned (call_of 1 0) (value 0) ∷ [] }
    // The steps of one caller that increments alone are a run.
    ensures alone { IsRun tally_alone counted_alone }
    // Before a caller has added 1, the tally refuses it a step that adds 2, one that adds nothing,
    // one that finds another word than the tally has, and the replies 0 and `bad`.
    ensures before { IsTrue (refuses_in tally_pair both_increments refused_before_adding) }
    // The tally allows both callers to add 1 to the word found.
    ensures adds { IsTrue (allows_in tally_pair both_increments
        (finds_and_leaves 0 0 1 ∷ finds_and_leaves 1 0 1 ∷ [])) }
    // Once a caller has added, the tally refuses it a second addition, a reply of the word that it
    // left, and the reply `bad`.
    ensures after_adding { IsTrue (refuses_in tally_pair counted_by_second refused_after_adding) }
    // The tally allows the reply of the word found once the caller has added.
    ensures replies { IsTrue (allows_in tally_pair counted_by_second (gets 1 1 (value 0) ∷ [])) }
{}

/// A read replies what was written last. A write stores its argument once and then replies done,
/// and a read changes nothing.
pub fn writes_are_read()
    // The steps of a write of 9 and a read of it are a run.
    ensures run { IsRun cell_pair written_and_read }
    // The word of the cell is 9 after the write and the read.
    ensures word { object_word cell_pair (end_of cell_pair written_and_read) 0 ≡ 9 }
    // The history has both invocations, then the read's return with 9, and the write's with done.
    ensures history { history_of cell_pair written_and_read
        ≡ Invoked (call_of 0 0) write_nine ∷ Invoked (call_of 1 0) read
        ∷ Returned (call_of 1 0) (value 9) ∷ Returned (call_of 0 0) done ∷ [] }
    // Before the steps of a write of 9 and a read, the cell refuses the write a step that stores 8
    // or the whole operation word, the read a step that stores 9, and both of them a reply.
    ensures before { IsTrue (refuses_in cell_pair write_and_read refused_before_writing) }
    // The cell allows the write to store its argument, and the read to leave the word.
    ensures steps { IsTrue (allows_in cell_pair write_and_read
        (finds_and_leaves 0 0 9 ∷ finds_and_leaves 1 0 0 ∷ [])) }
    // The cell refuses a second store, and a reply of a value to a write.
    ensures after_writing { IsTrue (refuses_in cell_pair written refused_after_writing) }
    // The cell allows the reply done once the caller has written.
    ensures replies { IsTrue (allows_in cell_pair written (gets 0 1 done ∷ [])) }
{}

/// A call of an operation that the tally or the cell doesn't know makes no step, and gets the reply
/// `bad`.
pub fn unknown_operations_reply_bad()
    // To an operation that it doesn't know the tally refuses a step that changes the word, a step
    // that doesn't, and the replies `done` and 0.
    ensures tally { IsTrue (refuses_in tally_pair unknown_announced refused_to_unknown) }
    // The tally allows the reply `bad` to an operation that it doesn't know.
    ensures tally_replies { IsTrue (allows_in tally_pair unknown_announced (gets 0 1 bad ∷ [])) }
    // To an operation that it doesn't know the cell refuses a step that changes the word, a step
    // that doesn't, and the replies `done` and 0.
    ensures cell { IsTrue (refuses_in cell_pair unknown_announced refused_to_unknown) }
    // The cell allows the reply `bad` to an operation that it doesn't know.
    ensures cell_replies { IsTrue (allows_in cell_pair unknown_announced (gets 0 1 bad ∷ [])) }
{}
