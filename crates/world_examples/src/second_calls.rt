//! Worked runs in which one caller makes two calls: what its local, the words of the table, the
//! book and the history keep of each call, and which steps and words belong to which call.

ghost use Rattle.std.specs.Prelude.{◌≡◌, ◌+◌, ◌*◌, ◌^◌, true, false, [], ◌∷◌, ◌++◌, IsTrue, Some, None, take, map};
ghost use Rattle.world_core.specs.declared.region.Region.TheVariants.{N, M};
ghost use Rattle.world_core.specs.Local.{own_count, word_of};
ghost use Rattle.world_core.specs.CallSteps.{operation_now, steps_now, all_steps_of};
ghost use Rattle.world_core.specs.Event.{Stage, Announce, Object, Look, Begins_view, peeked_at};
ghost use Rattle.world_core.specs.World.{IsRun, end_of, count_of, row_word, object_word};
ghost use Rattle.world_core.specs.History.{history_of, call_of, Invoked, Returned, IsLinearizable};
ghost use Rattle.world_examples.specs.Histories.{numbering};
ghost use Rattle.world_examples.specs.OneCaller.{in_turn, out_of_turn, returns_one, returns_none, returns_before};
ghost use Rattle.world_core.specs.Calls.{calls_in, book_in, Is_announced, Has_record, Has_seen};
ghost use Rattle.world_examples.specs.Schedules.{pair, trio, by, local_at, local_after_all, allows, refuses, allows_in, refuses_in, announcement, moved_twice, borrowed, object_step};
ghost use Rattle.world_examples.specs.Refusals.{entry_peeked};
ghost use Rattle.world_examples.specs.SecondCalls.{twice, two_by_one, first_operation, second_operation, as_announced, as_viewed, as_published, as_judged, second_ready, first_record, second_record, made, book_of_two, contents, staged_again, first_unstaged, peeking, looked_beside, two_words, steps_by_call, by_operation};

/// One caller makes two calls, after another caller has announced one: what the first caller's
/// local keeps of its calls, in their order.
pub fn a_caller_makes_two_calls()
    // The announcement of one caller and the two whole calls of the other are a run.
    ensures run { IsRun twice two_by_one }
    // After both calls the caller's local has their operations, in order.
    ensures operations { as_judged.operations ≡ first_operation ∷ second_operation ∷ [] }
    // After both calls the caller has announced two calls.
    ensures announced { as_judged.announced ≡ 2 }
    // After both calls the caller has published two records.
    ensures published { as_judged.published ≡ 2 }
    // After both calls the caller's local has their replies, in order.
    ensures replies { as_judged.replies ≡ 50 ∷ 60 ∷ [] }
    // After both calls the caller's local has their views, in order.
    ensures views { as_judged.views ≡ (1 ∷ 1 ∷ []) ∷ (2 ∷ 1 ∷ []) ∷ [] }
    // After both calls the caller's local has their seen cuts, in order.
    ensures seen { as_judged.seen ≡ (1 ∷ 0 ∷ []) ∷ (2 ∷ 0 ∷ []) ∷ [] }
    // After both calls the caller's local has the cuts that its two rows embed in N, in order.
    ensures embedded_in_N { as_judged.embedded_in_N ≡ (0 ∷ 1 ∷ []) ∷ (1 ∷ 1 ∷ []) ∷ [] }
    // After both calls the caller's local has the cuts that its two rows embed in M, in order.
    ensures embedded_in_M { as_judged.embedded_in_M ≡ (0 ∷ 0 ∷ []) ∷ (1 ∷ 0 ∷ []) ∷ [] }
    // After both calls the caller's local has an empty list of object steps for each of them.
    ensures object_steps { as_judged.object_steps ≡ [] ∷ [] ∷ [] }
    // After both calls the caller's local has all eight cuts that its scans gave, in order.
    ensures cuts { as_judged.cuts
        ≡ record { region = N; cut = 0 ∷ 1 ∷ []; since = 0 }
        ∷ record { region = N; cut = 1 ∷ 1 ∷ []; since = 4 }
        ∷ record { region = M; cut = 0 ∷ 0 ∷ []; since = 8 }
        ∷ record { region = M; cut = 1 ∷ 0 ∷ []; since = 12 }
        ∷ record { region = N; cut = 1 ∷ 1 ∷ []; since = 16 }
        ∷ record { region = N; cut = 2 ∷ 1 ∷ []; since = 20 }
        ∷ record { region = M; cut = 1 ∷ 0 ∷ []; since = 24 }
        ∷ record { region = M; cut = 2 ∷ 0 ∷ []; since = 28 }
        ∷ [] }
    // The words of the table at the end are the four counts and the four rows.
    ensures words { (end_of twice two_by_one).words
        ≡ (2 ∷ 1 ∷ 2 ∷ 0 ∷ [])
        ++ (5 ∷ 7 ∷ 0 ∷ 1 ∷ 50 ∷ 1 ∷ 1 ∷ 0 ∷ 0 ∷ [])
        ++ (6 ∷ 8 ∷ 1 ∷ 1 ∷ 60 ∷ 2 ∷ 1 ∷ 1 ∷ 0 ∷ [])
        ++ (9 ∷ 0 ∷ 0 ∷ 0 ∷ 0 ∷ 0 ∷ 0 ∷ 0 ∷ 0 ∷ [])
        ++ (0 ∷ 0 ∷ 0 ∷ 0 ∷ 0 ∷ 0 ∷ 0 ∷ 0 ∷ 0 ∷ []) }
    // Caller 1 has announced one call.
    ensures count_of_N { count_of twice (end_of twice two_by_one) N 1 ≡ 1 }
    // Caller 0 has published two records.
    ensures count_of_M { count_of twice (end_of twice two_by_one) M 0 ≡ 2 }
    // The second row of caller 0 has 8, the high word of its second operation, at place 1 in N.
    ensures row_of_N { row_word twice (end_of twice two_by_one) N 0 1 1 ≡ 8 }
    // The second row of caller 0 has 60, its second reply, at place 0 in M.
    ensures row_of_M { row_word twice (end_of twice two_by_one) M 0 1 0 ≡ 60 }
    // The history has the invocation of caller 1's call, then invocation and return of the first
    // call of caller 0, and then those of its second call.
    ensures history { history_of twice two_by_one
        ≡ Invoked (call_of 1 0) 9
        ∷ Invoked (call_of 0 0) first_operation
        ∷ Returned (call_of 0 0) 50
        ∷ Invoked (call_of 0 1) second_operation
        ∷ Returned (call_of 0 1) 60
        ∷ [] }
    // Call 2 of caller 3 is the call with the caller 3 and the number 2.
    ensures call { call_of 3 2 ≡ record { caller = 3; number = 2 } }
{}

/// How far the two calls of a caller have come at four moments of a run, and which words belong at
/// the places of its two rows.
pub fn second_calls_have_their_own()
    // Right after the second announcement the first call has its record and its seen cut, and the
    // second is announced.
    ensures announced { calls_in as_announced ≡ made first_operation
        (Has_seen first_record (1 ∷ 0 ∷ [])) ∷ made second_operation Is_announced ∷ [] }
    // Right after the view of the second call is taken, the second call has its record.
    ensures viewed { calls_in as_viewed ≡ made first_operation (Has_seen first_record (1 ∷ 0 ∷ []))
        ∷ made second_operation (Has_record second_record) ∷ [] }
    // Right after the second publication the second call has its record, and no seen cut yet.
    ensures published { calls_in as_published
        ≡ made first_operation (Has_seen first_record (1 ∷ 0 ∷ []))
        ∷ made second_operation (Has_record second_record) ∷ [] }
    // Right after the second seen cut the second call has its record and this seen cut.
    ensures judged { calls_in as_judged ≡ made first_operation (Has_seen first_record (1 ∷ 0 ∷ []))
        ∷ made second_operation (Has_seen second_record (2 ∷ 0 ∷ [])) ∷ [] }
    // The book at the end has both calls of caller 0 with their records, and the call of caller 1.
    ensures book { book_in (end_of twice two_by_one).locals ≡ book_of_two }
    // The words that belong at the places of the caller's first row are those of its first call.
    ensures first_words { map (word_of as_judged 0) contents
        ≡ 5 ∷ 7 ∷ 0 ∷ 1 ∷ 50 ∷ 1 ∷ 1 ∷ 0 ∷ 0 ∷ [] }
    // The words that belong at the places of the caller's second row are those of its second call.
    ensures second_words { map (word_of as_judged 1) contents
        ≡ 6 ∷ 8 ∷ 1 ∷ 1 ∷ 60 ∷ 2 ∷ 1 ∷ 1 ∷ 0 ∷ [] }
    // The caller's own count in N is 2 after the second announcement.
    ensures count_in_N { own_count as_announced N ≡ 2 }
    // The caller's own count in M is 1 after the second announcement.
    ensures count_in_M { own_count as_announced M ≡ 1 }
    // Right after the second view the operation of the call under way is the second one.
    ensures operation { operation_now as_viewed ≡ second_operation }
    // In its second row a caller may stage the reply of its second call, an entry of that call's
    // view, and an entry of the cut to embed.
    ensures own { IsTrue (allows_in twice second_ready
        (by 0 (Stage M 0 60) ∷ by 0 (Stage M 1 2) ∷ by 0 (Stage M 3 1) ∷ [])) }
    // In its second row a caller may not stage the reply, an entry of the view or an entry of the
    // embedded cut of its first call.
    ensures of_the_first { IsTrue (refuses_in twice second_ready
        (by 0 (Stage M 0 50) ∷ by 0 (Stage M 1 1) ∷ by 0 (Stage M 3 0) ∷ [])) }
{}

/// Each object step is noted with the call under way, and is made on the object word that it names;
/// and which steps and replies a program allows may depend on the caller's local.
pub fn object_steps_belong_to_calls()
    // The three steps on two object words, in two calls, are a run with the rest of these calls.
    ensures run { IsRun two_words steps_by_call }
    // For each call the caller's local has the object steps that the caller made in it, in order.
    ensures by_call { (local_after_all two_words steps_by_call 0).object_steps
        ≡ (object_step 1 0 3 ∷ object_step 0 0 4 ∷ []) ∷ (object_step 1 3 8 ∷ []) ∷ [] }
    // The object steps of the call under way, the second one, are that call's alone.
    ensures now { steps_now (local_after_all two_words steps_by_call 0) ≡ object_step 1 3 8 ∷ [] }
    // The operation of the call under way is that of the second call, 6.
    ensures operation { operation_now (local_after_all two_words steps_by_call 0) ≡ 6 }
    // The object steps of all calls are those of the first call and then those of the second.
    ensures all { all_steps_of (local_after_all two_words steps_by_call 0)
        ≡ object_step 1 0 3 ∷ object_step 0 0 4 ∷ object_step 1 3 8 ∷ [] }
    // The words of the table at the end are the counts, both rows, and then both object words.
    ensures words { (end_of two_words steps_by_call).words
        ≡ 2 ∷ 1 ∷ 5 ∷ 0 ∷ 0 ∷ 50 ∷ 1 ∷ 0 ∷ 6 ∷ 0 ∷ 1 ∷ 0 ∷ 0 ∷ 0 ∷ 4 ∷ 8 ∷ [] }
    // The second object word is 8.
    ensures second_word { object_word two_words (end_of two_words steps_by_call) 1 ≡ 8 }
    // No object step is enabled with another old word than the table has, nor on an object word
    // that the table doesn't have.
    ensures its_word { IsTrue (refuses_in two_words steps_by_call
        (by 0 (Object (object_step 1 4 5)) ∷ by 0 (Object (object_step 2 0 5)) ∷ [])) }
    // A program that goes by the operation allows a step and a reply of the caller's own operation.
    ensures own_operation { IsTrue (allows_in by_operation (announcement 0 5 (0 ∷ []))
        (by 0 (Object (object_step 0 0 5)) ∷ by 0 (Look N 0 1 (Begins_view 5)) ∷ [])) }
    // A program that goes by the operation refuses a step and a reply of another operation.
    ensures other_operation { IsTrue (refuses_in by_operation (announcement 0 5 (0 ∷ []))
        (by 0 (Object (object_step 0 0 6)) ∷ by 0 (Look N 0 1 (Begins_view 6)) ∷ [])) }
{}

/// A place may be staged again, and the row then has the word that was staged last; an operation is
/// announced with its high word; and each place of the row has to be staged before it is announced.
pub fn places_are_staged_again()
    // The steps in which a caller stages both words of its operation twice are a run.
    ensures run { IsRun pair staged_again }
    // The announced operation is that of the two words that were staged last.
    ensures operation { (local_at staged_again 0).operations ≡ second_operation ∷ [] }
    // The row has the low word that was staged last.
    ensures low { row_word pair (end_of pair staged_again) N 0 0 0 ≡ 6 }
    // The row has the high word that was staged last.
    ensures high { row_word pair (end_of pair staged_again) N 0 0 1 ≡ 8 }
    // Each staged word is kept in the local, newest first.
    ensures staged { (local_at (take 7 staged_again) 0).staged ≡ record { place = 0; word = 6 }
        ∷ record { place = 1; word = 7 } ∷ record { place = 0; word = 5 } ∷ [] }
    // The call is invoked with the operation of the two words that were staged last.
    ensures invoked { history_of pair staged_again ≡ Invoked (call_of 0 0) second_operation ∷ [] }
    // A caller that has staged each place of its row in N but place 0 may not announce.
    ensures first_lacks { IsTrue (refuses first_unstaged (by 0 Announce ∷ [])) }
    // A caller that has staged each place of its row in N, place 0 last, may announce.
    ensures first_is_staged { IsTrue
        (allows (first_unstaged ++ by 0 (Stage N 0 5) ∷ []) (by 0 Announce ∷ [])) }
{}

/// What a caller keeps of a word that it peeked: the region, the caller, the row, the place, and
/// the word, newest first. A scan takes no word of a look or a peek in the other region.
pub fn peeks_are_kept()
    // The steps in which a caller borrows a cut and then peeks an operation are a run.
    ensures run { IsRun trio peeking }
    // The words that the caller peeked in N are kept with region, caller, row and place, newest
    // first.
    ensures of_N { (local_after_all trio peeking 2).peeked
        ≡ record { region = N; caller = 1; row = 0; place = 0; word = 7 }
        ∷ record { region = N; caller = 0; row = 1; place = 4; word = 0 }
        ∷ record { region = N; caller = 0; row = 1; place = 3; word = 1 }
        ∷ record { region = N; caller = 0; row = 0; place = 3; word = 0 }
        ∷ record { region = N; caller = 0; row = 1; place = 2; word = 1 }
        ∷ [] }
    // The words that the caller peeked in M are kept with region, caller, row and place, newest
    // first.
    ensures of_M { (local_at entry_peeked 1).peeked
        ≡ record { region = M; caller = 0; row = 0; place = 1; word = 1 }
        ∷ record { region = M; caller = 0; row = 0; place = 0; word = 50 } ∷ [] }
    // A scan of N doesn't take the word of a look in M, though it needs a look at the same caller.
    ensures looked_beside { (local_at looked_beside 0).scan
        ≡ Some (record { region = N; is_view = false; since = 0; taken = 0 ∷ [] }) }
    // A scan of N doesn't take the word of a peek in M, though it needs a peek into the same row.
    ensures peeked_beside { (peeked_at 3 (local_after_all trio (moved_twice ++ take 3 borrowed) 2) M
        0 1 4 9).scan ≡ (local_after_all trio (moved_twice ++ take 3 borrowed) 2).scan }
{}

/// Which histories of one caller are linearizable for an object that replies the number of
/// operations before. The caller's second call comes after its first, though both have the same
/// operation. No call is in the order twice, or returns before it is invoked. Which replies are
/// right depends on the list that the object begins with.
#[tactic(auto, using(crate::proofs::OneCaller::in_turn_linearizable, crate::proofs::OneCaller::caller_forbids, crate::proofs::OneCaller::one_forbids, crate::proofs::OneCaller::list_allows, crate::proofs::OneCaller::list_forbids, crate::proofs::OneCaller::before_forbids))]
pub fn histories_of_one_caller_are_linearizable()
    // A history of two calls of one caller, one after the other, that return 0 and 1 is
    // linearizable for an object that replies the number of operations before.
    ensures in_turn { IsLinearizable numbering in_turn }
    // A history of two calls of one caller, one after the other, that return 1 and 0 isn't
    // linearizable for an object that replies the number of operations before.
    ensures by_caller { ¬ IsLinearizable numbering out_of_turn }
    // A history of one call, which returns 1, isn't linearizable for an object that replies the
    // length of its list and begins with the empty list.
    ensures once { ¬ IsLinearizable numbering returns_one }
    // A history of one call, which returns 1, is linearizable for an object that replies the length
    // of its list and begins with a list of one operation.
    ensures from_a_list { IsLinearizable (record numbering { init = 7 ∷ [] }) returns_one }
    // A history of one call, which returns 0, isn't linearizable for an object that replies the
    // length of its list and begins with a list of one operation.
    ensures from_that_list { ¬ IsLinearizable (record numbering { init = 7 ∷ [] }) returns_none }
    // A history in which a call returns before it is invoked isn't linearizable.
    ensures before_itself { ¬ IsLinearizable numbering returns_before }
{}
