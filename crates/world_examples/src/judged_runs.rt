//! Worked runs that meet the premises of the laws of `world_laws`; and one in which an error would
//! be false if calls returned only once they have their views.

ghost use Rattle.std.specs.Prelude.{◌≡◌, [], ◌∷◌, take, map};
ghost use Rattle.book_base.specs.BookAt.{book_at};
ghost use Rattle.book_base.specs.Order.{HasLegalOrder};
ghost use Rattle.world_examples.specs.Schedules.{pair, two_calls, tenfold, silent, local_at as local_after};
ghost use Rattle.world_examples.specs.Histories.{numbering};
ghost use Rattle.world_core.specs.World.{IsRun, end_of};
ghost use Rattle.world_core.specs.History.{Invoked, Returned, IsLinearizable, call_of, history_of};
ghost use Rattle.world_core.specs.Calls.{IsPublished, IsGathered, AreTogether, book_in, calls_in};
ghost use Rattle.world_laws.specs.Rows.{book_in_rows};
ghost use Rattle.world_laws.specs.Verdicts.{HasSeenCut, AreDelivered};
ghost use Rattle.world_examples.specs.JudgedRuns.{locals_after, page, both_answered, one_answered, gathering, late_history_of, missed, missed_part, ReturnsMayBeLate};

/// A run of two calls whose history is linearizable for one object and not for another. Each of the
/// calls has a seen cut. The books at these cuts have legal orders for the first object, and one of
/// them has none for the other.
pub fn a_run_is_judged()
    // The steps of the two whole calls are a run.
    ensures run { IsRun pair two_calls }
    // The locals after the two calls are those of one reachable world.
    ensures together { AreTogether pair (locals_after two_calls) }
    // The book of the locals has both calls, each with its record.
    ensures book { book_in (locals_after two_calls) ≡ both_answered }
    // The book at the cut of the first record has both calls, and this record alone.
    ensures early { book_at (1 ∷ 0 ∷ []) (book_in (locals_after two_calls)) ≡ one_answered }
    // The cut of the first record counts published records alone.
    ensures published { IsPublished (locals_after two_calls) (1 ∷ 0 ∷ []) }
    // The first call has seen the cut of its own record alone.
    ensures first_sees { HasSeenCut (map calls_in (locals_after two_calls)) (call_of 0 0)
        (1 ∷ 0 ∷ []) }
    // The second call has seen the cut of both records.
    ensures second_sees { HasSeenCut (map calls_in (locals_after two_calls)) (call_of 1 0)
        (1 ∷ 1 ∷ []) }
    // The history of the run is linearizable for the object that replies ten times the operation.
    ensures lawful { IsLinearizable tenfold (history_of pair two_calls) }
    // Both cuts were seen, and the book at each has a legal order for the object that replies ten
    // times the operation.
    ensures delivered { AreDelivered tenfold (locals_after two_calls)
        ((1 ∷ 0 ∷ []) ∷ (1 ∷ 1 ∷ []) ∷ []) }
    // The history of the run isn't linearizable for the object that always replies 0.
    ensures unlawful { ¬ IsLinearizable silent (history_of pair two_calls) }
    // The book at the cut of the first record has no legal order for the object that always replies
    // 0.
    ensures error { ¬ HasLegalOrder silent
        (book_at (1 ∷ 0 ∷ []) (book_in (locals_after two_calls))) }
{}

/// A call that has its reply, and no view yet, has no record in the book.
pub fn a_reply_is_no_record()
    // After ten steps of the run of two calls the first caller has its reply.
    ensures replied { (local_after (take 10 two_calls) 0).replies ≡ 50 ∷ [] }
    // After ten steps of the run of two calls the book has the first call, without a record.
    ensures book { book_in (locals_after (take 10 two_calls))
        ≡ record { operations = 5 ∷ []; records = [] }
        ∷ record { operations = []; records = [] } ∷ [] }
{}

/// A record that its caller hasn't published is in the book of the locals, and in no counted row.
pub fn an_unpublished_record_is_in_no_row()
    // After 24 steps of the run of two calls the book of the locals has the first call's record.
    ensures book { book_in (locals_after (take 24 two_calls)) ≡ one_answered }
    // After 24 steps of the run of two calls the book of the rows has both calls and no record.
    ensures rows { book_in_rows pair (end_of pair (take 24 two_calls))
        ≡ page (5 ∷ []) [] ∷ page (6 ∷ []) [] ∷ [] }
    // After all steps of the run of two calls the book of the rows has both records.
    ensures later { book_in_rows pair (end_of pair two_calls) ≡ both_answered }
{}

/// A caller peeks each word of the book at its seen cut.
pub fn a_book_is_gathered()
    // The steps of the two calls and of the peeks are a run.
    ensures run { IsRun pair gathering }
    // Caller 1 has peeked each word of the book at the cut of both records.
    ensures gathered { IsGathered 2 (local_after gathering 1) (1 ∷ 1 ∷ []) both_answered }
    // The cut of both records counts published records alone.
    ensures published { IsPublished (locals_after gathering) (1 ∷ 1 ∷ []) }
    // The gathered book is the book, at the cut of both records, of both callers' calls.
    ensures book { book_at (1 ∷ 1 ∷ []) (book_in (locals_after gathering)) ≡ both_answered }
{}

/// If a call returned only at the last step of its view's scan, a run could have a linearizable
/// history and yet an error, since that step may come after an announcement that the view misses. A
/// call returns at the first look, and then the run's history isn't linearizable either.
pub fn calls_return_at_the_first_look()
    // The steps in which a view misses an announcement are a run.
    ensures run { IsRun pair missed }
    // Where calls return only once they have their views, the history has the invocation of caller
    // 0's call before the return of caller 1's.
    ensures late { late_history_of pair missed
        ≡ Invoked (call_of 1 0) 6 ∷ Invoked (call_of 0 0) 5 ∷ Returned (call_of 1 0) 1 ∷ [] }
    // Where calls return only once they have their views, the history is linearizable for the
    // object that replies the number of operations before.
    ensures late_lawful { IsLinearizable numbering (late_history_of pair missed) }
    // The cut of the record of caller 1 counts published records alone.
    ensures published { IsPublished (locals_after missed) (0 ∷ 1 ∷ []) }
    // The book at the cut of the record of caller 1 has that caller's call alone, with its record.
    ensures book { book_at (0 ∷ 1 ∷ []) (book_in (locals_after missed)) ≡ missed_part }
    // The book at the cut of the record of caller 1 has no legal order for the object that replies
    // the number of operations before.
    ensures error { ¬ HasLegalOrder numbering
        (book_at (0 ∷ 1 ∷ []) (book_in (locals_after missed))) }
    // If calls returned only once they have their views, some error would be false.
    ensures so { ¬ ReturnsMayBeLate }
    // The history has the return of caller 1's call, at the first look of its view's scan, before
    // the invocation of caller 0's.
    ensures history { history_of pair missed
        ≡ Invoked (call_of 1 0) 6 ∷ Returned (call_of 1 0) 1 ∷ Invoked (call_of 0 0) 5 ∷ [] }
    // The history with the return at the first look isn't linearizable for the object that replies
    // the number of operations before.
    ensures unlawful { ¬ IsLinearizable numbering (history_of pair missed) }
{}
