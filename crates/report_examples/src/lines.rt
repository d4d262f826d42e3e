//! Worked cases: what the definitions say of phases, calls and lines that are written out.

ghost use Rattle.std.specs.Prelude.{◌≡◌, ℕ, true, false, [], ◌∷◌, map, Some, None, slice_index};
ghost use Rattle.std.specs.List.{range_with_len};
ghost use Rattle.report_lines.specs.Lines.{calls_of, book_of_lines, lines_at, seen_at, delivered_at, error_at, any_error};
ghost use Rattle.report_lines.specs.Phases.{begun, asked, answered, published_by, judged as judged_by, Announced, Recorded, Seen, marks_after, operations_of, progress_of, no_progress, IsProgressAfter, answers_in, IsTold};
ghost use Rattle.report_lines.specs.Progress.{after_announcing, after_stepping, after_viewing, after_publishing, after_seeing};
ghost use Rattle.report_lines.specs.Allotments.{phases_for, turns_of, allotments_of, allotments_by_turns, phases_of, KeepsTo, published_in};
ghost use Rattle.report_lines.specs.Lawful.{IsAllotted, AreSeen, delivered_cuts, delivered_cut};
ghost use Rattle.reports.specs.Cases.{answer, pending, unchecked, delivered, failed, first, second, third, worked_lines};
ghost use Rattle.report_examples.specs.Lines.{call, worked_operations, worked_stops, made, recorded, judged, worked_calls, page, worked_book, seen_by_second, failed_by_second, three_delivered, progress, object_step, stepped};
ghost use Rattle.world_core.specs.Local.{fresh};
ghost use Rattle.world_core.specs.CallSteps.{operation_now, steps_now, all_steps_of};
ghost use Rattle.world_core.specs.Event.{Announce, Object, local_after};

/// How many calls are announced, asked, recorded, published and judged after each of 0 to 11
/// phases: the announcement is the first of a call's five phases, then come the object's answer,
/// the view, the publication and the verdict.
pub fn phases_are_five_for_each_call()
    // After 0, 1, 2 and so on up to 11 phases this many calls are announced: 0, 1, 1, 1, 1, 1, 2,
    // 2, 2, 2, 2 and 3.
    ensures begun { map begun (range_with_len 0 12)
        ≡ 0 ∷ 1 ∷ 1 ∷ 1 ∷ 1 ∷ 1 ∷ 2 ∷ 2 ∷ 2 ∷ 2 ∷ 2 ∷ 3 ∷ [] }
    // After 0, 1, 2 and so on up to 11 phases this many calls were asked of the object: 0, 0, 1, 1,
    // 1, 1, 1, 2, 2, 2, 2 and 2.
    ensures asked { map asked (range_with_len 0 12)
        ≡ 0 ∷ 0 ∷ 1 ∷ 1 ∷ 1 ∷ 1 ∷ 1 ∷ 2 ∷ 2 ∷ 2 ∷ 2 ∷ 2 ∷ [] }
    // After 0, 1, 2 and so on up to 11 phases this many calls have their record: 0, 0, 0, 1, 1, 1,
    // 1, 1, 2, 2, 2 and 2.
    ensures answered { map answered (range_with_len 0 12)
        ≡ 0 ∷ 0 ∷ 0 ∷ 1 ∷ 1 ∷ 1 ∷ 1 ∷ 1 ∷ 2 ∷ 2 ∷ 2 ∷ 2 ∷ [] }
    // After 0, 1, 2 and so on up to 11 phases this many records are published: 0, 0, 0, 0, 1, 1, 1,
    // 1, 1, 2, 2 and 2.
    ensures published { map published_by (range_with_len 0 12)
        ≡ 0 ∷ 0 ∷ 0 ∷ 0 ∷ 1 ∷ 1 ∷ 1 ∷ 1 ∷ 1 ∷ 2 ∷ 2 ∷ 2 ∷ [] }
    // After 0, 1, 2 and so on up to 11 phases this many calls are judged: 0, 0, 0, 0, 0, 1, 1, 1,
    // 1, 1, 2 and 2.
    ensures judged { map judged_by (range_with_len 0 12)
        ≡ 0 ∷ 0 ∷ 0 ∷ 0 ∷ 0 ∷ 1 ∷ 1 ∷ 1 ∷ 1 ∷ 1 ∷ 2 ∷ 2 ∷ [] }
{}

/// The marks of a caller's calls after each of 0 to 8 phases, and after 11.
pub fn marks_tell_how_far_calls_are()
    // After no phase there is no mark.
    ensures none { marks_after 0 ≡ [] }
    // After one phase the only call is announced.
    ensures one { marks_after 1 ≡ Announced ∷ [] }
    // After two phases the only call is still announced.
    ensures two { marks_after 2 ≡ Announced ∷ [] }
    // After three phases the only call has its record.
    ensures three { marks_after 3 ≡ Recorded ∷ [] }
    // After four phases the only call still has its record.
    ensures four { marks_after 4 ≡ Recorded ∷ [] }
    // After five phases the only call has its seen cut.
    ensures five { marks_after 5 ≡ Seen ∷ [] }
    // After six phases the first call has its seen cut, and the second is announced.
    ensures six { marks_after 6 ≡ Seen ∷ Announced ∷ [] }
    // After seven phases the second call is still announced.
    ensures seven { marks_after 7 ≡ Seen ∷ Announced ∷ [] }
    // After eight phases the second call has its record.
    ensures eight { marks_after 8 ≡ Seen ∷ Recorded ∷ [] }
    // After eleven phases two calls have their seen cuts, and the third is announced.
    ensures eleven { marks_after 11 ≡ Seen ∷ Seen ∷ Announced ∷ [] }
{}

/// How a caller's progress grows phase by phase with its second call, and which progress fits six,
/// eight and nine phases.
pub fn a_second_call_goes_on()
    // Announcing the operation 7 puts a second call after the judged one.
    ensures announced { after_announcing 7 (progress (judged 5 first [] ∷ []) 1)
        ≡ progress (judged 5 first [] ∷ made 7 ∷ []) 1 }
    // Taking the view gives the second call its record, which isn't published yet.
    ensures viewed { after_viewing second (progress (judged 5 first [] ∷ made 7 ∷ []) 1)
        ≡ progress (judged 5 first [] ∷ recorded 7 second ∷ []) 1 }
    // Publishing raises the count of published records to 2, and changes no call.
    ensures published { after_publishing (progress (judged 5 first [] ∷ recorded 7 second ∷ []) 1)
        ≡ progress (judged 5 first [] ∷ recorded 7 second ∷ []) 2 }
    // Judging gives the second call its seen cut.
    ensures seen { after_seeing (2 ∷ []) (progress (judged 5 first [] ∷ recorded 7 second ∷ []) 2)
        ≡ progress (judged 5 first [] ∷ judged 7 second (2 ∷ []) ∷ []) 2 }
    // Six phases make the progress with one judged and one announced call.
    ensures after_six { IsProgressAfter (5 ∷ 7 ∷ []) 6
        (progress (judged 5 first [] ∷ made 7 ∷ []) 1) }
    // Eight phases make the progress with one judged and one recorded call, and one published
    // record.
    ensures after_eight { IsProgressAfter (5 ∷ 7 ∷ []) 8
        (progress (judged 5 first [] ∷ recorded 7 second ∷ []) 1) }
    // Nine phases make the progress with one judged and one recorded call, and two published
    // records.
    ensures after_nine { IsProgressAfter (5 ∷ 7 ∷ []) 9
        (progress (judged 5 first [] ∷ recorded 7 second ∷ []) 2) }
    // A progress with one published record isn't one after nine phases, which publish two records.
    ensures not_after_nine { ¬ IsProgressAfter (5 ∷ 7 ∷ []) 9
        (progress (judged 5 first [] ∷ recorded 7 second ∷ []) 1) }
    // A progress whose second call has another operation than the caller's second one isn't one
    // after eight phases.
    ensures another_operation { ¬ IsProgressAfter (5 ∷ 6 ∷ []) 8
        (progress (judged 5 first [] ∷ recorded 7 second ∷ []) 1) }
    // A progress without the second call isn't one after six phases, since the sixth announces that
    // call.
    ensures a_call_left_out { ¬ IsProgressAfter (5 ∷ 7 ∷ []) 6
        (progress (judged 5 first [] ∷ []) 1) }
{}

/// A caller has no object step before its first call, and none in a call that it has just
/// announced. Each further object step comes last in the call under way and last of all.
pub fn object_steps_are_of_calls()
    // The progress at the start has no call, no published record and no object step.
    ensures none { progress_of fresh ≡ no_progress }
    // Where one of two calls is published, the operation of the call under way is the second
    // call's.
    ensures operation { operation_now stepped ≡ 7 }
    // The object steps of the call under way are those of the second call alone.
    ensures now { steps_now stepped ≡ object_step 6 9 ∷ [] }
    // The object steps of all calls are those of the first call, and then the second call's.
    ensures all { all_steps_of stepped ≡ object_step 0 3 ∷ object_step 3 6 ∷ object_step 6 9 ∷ [] }
    // The progress of a local has the object steps of all its calls.
    ensures progress { (progress_of stepped).steps ≡ all_steps_of stepped }
    // An object step is added to the progress of its caller.
    ensures stepped { progress_of (local_after 3 stepped (Object (object_step 9 2)))
        ≡ after_stepping (object_step 9 2) (progress_of stepped) }
    // An object step is added after the other object steps of the call under way.
    ensures stepped_now { steps_now (local_after 3 stepped (Object (object_step 9 2)))
        ≡ object_step 6 9 ∷ object_step 9 2 ∷ [] }
    // An object step is added after all other object steps of its caller.
    ensures last { (after_stepping (object_step 9 2) (progress_of stepped)).steps
        ≡ object_step 0 3 ∷ object_step 3 6 ∷ object_step 6 9 ∷ object_step 9 2 ∷ [] }
    // A call that has just been announced has no object step.
    ensures announced { steps_now (local_after 3 fresh Announce) ≡ [] }
    // A progress after six phases may have object steps of both calls.
    ensures any_steps { IsProgressAfter (5 ∷ 7 ∷ []) 6 (progress_of stepped) }
{}

/// An object tells an operation and a reply for each call that it was asked, of which the last may
/// have no record yet.
pub fn objects_tell_of_what_they_were_asked()
    // The answers of calls are the operation and the reply of each call that has its record.
    ensures answers { answers_in (judged 5 first [] ∷ recorded 7 second ∷ made 8 ∷ [])
        ≡ (5, 50) ∷ (7, 61) ∷ [] }
    // An object tells of one call after six phases, since the second one wasn't asked yet.
    ensures announced { IsTold 6 (judged 5 first [] ∷ made 7 ∷ []) ((5, 50) ∷ []) }
    // An object tells of two calls after seven phases, of the second one with whatever reply.
    ensures asked { IsTold 7 (judged 5 first [] ∷ made 7 ∷ []) ((5, 50) ∷ (7, 4) ∷ []) }
    // An object tells of two calls after eight phases, each with the reply of its record.
    ensures viewed { IsTold 8 (judged 5 first [] ∷ recorded 7 second ∷ [])
        ((5, 50) ∷ (7, 61) ∷ []) }
    // An object doesn't tell of a call that it wasn't asked yet.
    ensures not_asked { ¬ IsTold 6 (judged 5 first [] ∷ made 7 ∷ []) ((5, 50) ∷ (7, 4) ∷ []) }
    // An object doesn't leave out a call that it was asked.
    ensures forgotten { ¬ IsTold 7 (judged 5 first [] ∷ made 7 ∷ []) ((5, 50) ∷ []) }
    // An object doesn't tell another reply than that of the call's record.
    ensures another_reply { ¬ IsTold 8 (judged 5 first [] ∷ recorded 7 second ∷ [])
        ((5, 50) ∷ (7, 4) ∷ []) }
    // An object doesn't tell another operation than the call's.
    ensures another_operation { ¬ IsTold 7 (judged 5 first [] ∷ made 7 ∷ [])
        ((5, 50) ∷ (9, 4) ∷ []) }
{}

/// What lines with all four ends tell: their calls, their book, their seen cuts, and their errors.
pub fn lines_tell_of_calls()
    // Lines of three callers with all four ends tell of these calls: a judged and an announced one
    // of the first caller, a judged one of the second, and a recorded one of the third.
    ensures calls { calls_of worked_lines ≡ worked_calls }
    // The book of lines with all four ends has each call, and the records of the calls that have
    // one.
    ensures book { book_of_lines worked_lines ≡ worked_book }
    // Of four lines, one with each end, the delivered one and the error have seen cuts, and the
    // others have none. A call without a line has none either.
    ensures seen { map (seen_at worked_lines)
        (call 0 0 ∷ call 0 1 ∷ call 1 0 ∷ call 2 0 ∷ call 2 1 ∷ call 3 0 ∷ [])
        ≡ Some (1 ∷ 0 ∷ 0 ∷ []) ∷ None ∷ Some (1 ∷ 1 ∷ 0 ∷ []) ∷ None ∷ None ∷ None ∷ [] }
    // Of four lines, one with each end, only the first caller's first one is delivered, with the
    // seen cut 1, 0, 0.
    ensures delivered { map (delivered_at worked_lines)
        (call 0 0 ∷ call 0 1 ∷ call 1 0 ∷ call 2 0 ∷ [])
        ≡ Some (1 ∷ 0 ∷ 0 ∷ []) ∷ None ∷ None ∷ None ∷ [] }
    // Of four lines, one with each end, only the second caller's one is an error, with the seen cut
    // 1, 1, 0.
    ensures error { map (error_at worked_lines) (call 0 0 ∷ call 0 1 ∷ call 1 0 ∷ call 2 0 ∷ [])
        ≡ None ∷ None ∷ Some (1 ∷ 1 ∷ 0 ∷ []) ∷ None ∷ [] }
    // Of the three callers the second one has an error.
    ensures has_error { map (λ i. any_error (lines_at worked_lines i)) (0 ∷ 1 ∷ 2 ∷ [])
        ≡ false ∷ true ∷ false ∷ [] }
    // An error line is found also after a delivered line.
    ensures error_after { any_error (delivered 5 first [] ∷ failed 6 second [] ∷ []) ≡ true }
{}

/// How many phases callers are given, by their calls, stops and turns, and how many they make.
pub fn callers_are_given_phases()
    // A caller without a stop is given five phases for each of its calls.
    ensures without_stop { phases_for None 3 ≡ 15 }
    // A caller with a stop is given as many phases as its stop says.
    ensures with_stop { phases_for (Some 4) 3 ≡ 4 }
    // A caller that stops at once is given no phase.
    ensures stop_at_once { phases_for (Some 0) 3 ≡ 0 }
    // A caller has one turn for each time that the list of turns names it.
    ensures turns { map (turns_of (1 ∷ 0 ∷ 1 ∷ 2 ∷ 1 ∷ [])) (0 ∷ 1 ∷ 2 ∷ 3 ∷ [])
        ≡ 1 ∷ 3 ∷ 1 ∷ 0 ∷ [] }
    // Three callers with 2, 2 and 1 calls are given 6, 10 and 3 phases, where the first stops after
    // six phases, the second doesn't stop, and the third stops after three.
    ensures allotments { allotments_of worked_operations worked_stops ≡ 6 ∷ 10 ∷ 3 ∷ [] }
    // Callers without stops are given five phases for each of their calls.
    ensures no_stops { allotments_of worked_operations [] ≡ 10 ∷ 10 ∷ 5 ∷ [] }
    // A caller without calls is given no phase.
    ensures no_calls { allotments_of ([] ∷ []) [] ≡ 0 ∷ [] }
    // A caller that takes turns is given one phase for each of its turns, but no more phases than
    // it is given without turns.
    ensures by_turns { allotments_by_turns worked_operations worked_stops
        (0 ∷ 1 ∷ 2 ∷ 2 ∷ 1 ∷ 2 ∷ 2 ∷ []) ≡ 1 ∷ 2 ∷ 3 ∷ [] }
    // A caller without an error makes all phases that it is given.
    ensures all_made { phases_of 6 (lines_at worked_lines 0) ≡ 6 }
    // A caller that is given ten phases, and whose only line is an error, has made five.
    ensures up_to_the_error { phases_of 10 (lines_at worked_lines 1) ≡ 5 }
    // A caller that is given three phases publishes no record.
    ensures published { published_in (6 ∷ 10 ∷ 3 ∷ []) worked_lines ≡ 1 ∷ 1 ∷ 0 ∷ [] }
    // A caller that is given four phases publishes its first record.
    ensures published_later { published_in (6 ∷ 10 ∷ 4 ∷ []) worked_lines ≡ 1 ∷ 1 ∷ 1 ∷ [] }
{}

/// Which lines a caller with the operations 5 and 7 has for an allotment of 0 to 6, of 10 and of 11
/// phases: one line for each call that it made, in order, and none after an error.
pub fn lines_are_those_of_the_allotment()
    // Without a phase a caller has no line.
    ensures none { IsAllotted (5 ∷ 7 ∷ []) 0 [] }
    // After one phase a caller has one line, which is pending.
    ensures one { IsAllotted (5 ∷ 7 ∷ []) 1 (pending 5 ∷ []) }
    // After two phases the only line is still pending.
    ensures two { IsAllotted (5 ∷ 7 ∷ []) 2 (pending 5 ∷ []) }
    // After three phases the only line is unchecked.
    ensures three { IsAllotted (5 ∷ 7 ∷ []) 3 (unchecked 5 first ∷ []) }
    // After four phases the only line is still unchecked.
    ensures four { IsAllotted (5 ∷ 7 ∷ []) 4 (unchecked 5 first ∷ []) }
    // After five phases the only line may be delivered.
    ensures five { IsAllotted (5 ∷ 7 ∷ []) 5 (delivered 5 first [] ∷ []) }
    // After six phases the first line may be delivered, and the second is pending.
    ensures six { IsAllotted (5 ∷ 7 ∷ []) 6 (delivered 5 first [] ∷ pending 7 ∷ []) }
    // An error may be the last line of a caller that is given more phases.
    ensures error { IsAllotted (5 ∷ 7 ∷ []) 10 (failed 5 first [] ∷ []) }
    // An error may come after a delivered line, and be the last one.
    ensures last_error { IsAllotted (5 ∷ 7 ∷ []) 10
        (delivered 5 first [] ∷ failed 7 first [] ∷ []) }
    // Without a phase no line is pending.
    ensures begun_too_early { ¬ IsAllotted (5 ∷ 7 ∷ []) 0 (pending 5 ∷ []) }
    // After one phase the announced call has a line.
    ensures not_begun { ¬ IsAllotted (5 ∷ 7 ∷ []) 1 [] }
    // After two phases no line is unchecked.
    ensures viewed_too_early { ¬ IsAllotted (5 ∷ 7 ∷ []) 2 (unchecked 5 first ∷ []) }
    // After three phases no line is pending.
    ensures not_viewed { ¬ IsAllotted (5 ∷ 7 ∷ []) 3 (pending 5 ∷ []) }
    // After four phases no line is delivered.
    ensures judged_too_early { ¬ IsAllotted (5 ∷ 7 ∷ []) 4 (delivered 5 first [] ∷ []) }
    // After four phases no line is an error.
    ensures error_too_early { ¬ IsAllotted (5 ∷ 7 ∷ []) 4 (failed 5 first [] ∷ []) }
    // After five phases the only line isn't unchecked.
    ensures not_judged { ¬ IsAllotted (5 ∷ 7 ∷ []) 5 (unchecked 5 first ∷ []) }
    // After ten phases a caller whose first line is delivered has a second line.
    ensures left_out { ¬ IsAllotted (5 ∷ 7 ∷ []) 10 (delivered 5 first [] ∷ []) }
    // No line follows an error line.
    ensures after_an_error { ¬ IsAllotted (5 ∷ 7 ∷ []) 10
        (failed 5 first [] ∷ delivered 7 first [] ∷ []) }
    // The lines of a caller are in the order of its operations.
    ensures another_order { ¬ IsAllotted (5 ∷ 7 ∷ []) 10
        (delivered 7 first [] ∷ delivered 5 first [] ∷ []) }
    // A caller has no more lines than operations.
    ensures one_too_many { ¬ IsAllotted (5 ∷ 7 ∷ []) 11
        (delivered 5 first [] ∷ delivered 7 first [] ∷ pending 0 ∷ []) }
{}

/// When seen cuts fit one another and the published records. A seen cut doesn't fit where it has
/// too few counts, lacks its own line's call, holds a later call of that line's caller or a record
/// that isn't published, or isn't comparable with another seen cut.
pub fn seen_cuts_fit()
    // The seen cut 1, 0, 0 of a delivered line and the seen cut 1, 1, 0 of another caller's error
    // line fit one another and the published records.
    ensures worked { AreSeen (published_in (6 ∷ 10 ∷ 3 ∷ []) worked_lines) worked_lines }
    // A seen cut with a record of caller 2 doesn't fit where that caller wasn't given the phase
    // that publishes it.
    ensures unpublished { ¬ AreSeen
        (published_in (6 ∷ 10 ∷ 3 ∷ []) (seen_by_second (1 ∷ 1 ∷ 1 ∷ [])))
        (seen_by_second (1 ∷ 1 ∷ 1 ∷ [])) }
    // A seen cut with a record of caller 2 fits where that caller was given the phase that
    // publishes it.
    ensures published { AreSeen (published_in (6 ∷ 10 ∷ 4 ∷ []) (seen_by_second (1 ∷ 1 ∷ 1 ∷ [])))
        (seen_by_second (1 ∷ 1 ∷ 1 ∷ [])) }
    // A seen cut with two counts for three callers doesn't fit.
    ensures narrow { ¬ AreSeen (1 ∷ 1 ∷ 0 ∷ []) (seen_by_second (1 ∷ 1 ∷ [])) }
    // A seen cut that lacks the call of its own line doesn't fit.
    ensures lacks_its_own { ¬ AreSeen (1 ∷ 1 ∷ 0 ∷ []) (seen_by_second (1 ∷ 0 ∷ 0 ∷ [])) }
    // A seen cut that holds a call of its line's caller after the line's own call doesn't fit.
    ensures own_later_one { ¬ AreSeen (1 ∷ 2 ∷ 0 ∷ []) (seen_by_second (1 ∷ 2 ∷ 0 ∷ [])) }
    // A seen cut that isn't comparable with another line's doesn't fit.
    ensures crossing { ¬ AreSeen (1 ∷ 1 ∷ 1 ∷ []) (seen_by_second (0 ∷ 1 ∷ 0 ∷ [])) }
{}

/// When an error line's seen cut fits the other seen cuts and the published records. It doesn't fit
/// where it has too few counts, lacks its own line's call, holds a later call of that line's caller
/// or a record that isn't published, or isn't comparable with another seen cut.
pub fn seen_cuts_of_errors_fit()
    // An error's seen cut with a record of caller 2 doesn't fit where that caller wasn't given the
    // phase that publishes it.
    ensures unpublished { ¬ AreSeen
        (published_in (6 ∷ 10 ∷ 3 ∷ []) (failed_by_second (1 ∷ 1 ∷ 1 ∷ [])))
        (failed_by_second (1 ∷ 1 ∷ 1 ∷ [])) }
    // An error's seen cut with a record of caller 2 fits where that caller was given the phase that
    // publishes it.
    ensures published { AreSeen (published_in (6 ∷ 10 ∷ 4 ∷ []) (failed_by_second (1 ∷ 1 ∷ 1 ∷ [])))
        (failed_by_second (1 ∷ 1 ∷ 1 ∷ [])) }
    // An error's seen cut with two counts for three callers doesn't fit.
    ensures narrow { ¬ AreSeen (1 ∷ 1 ∷ 0 ∷ []) (failed_by_second (1 ∷ 1 ∷ [])) }
    // An error's seen cut that lacks the call of its own line doesn't fit.
    ensures lacks_its_own { ¬ AreSeen (1 ∷ 1 ∷ 0 ∷ []) (failed_by_second (1 ∷ 0 ∷ 0 ∷ [])) }
    // An error's seen cut that holds a call of its line's caller after the line's own call doesn't
    // fit.
    ensures own_later_one { ¬ AreSeen (1 ∷ 2 ∷ 0 ∷ []) (failed_by_second (1 ∷ 2 ∷ 0 ∷ [])) }
    // An error's seen cut that isn't comparable with another line's doesn't fit.
    ensures crossing { ¬ AreSeen (1 ∷ 1 ∷ 1 ∷ []) (failed_by_second (0 ∷ 1 ∷ 0 ∷ [])) }
{}

/// The greatest delivered cut has for each caller the greatest count in the delivered lines' seen
/// cuts, or 0 where no line is delivered; the seen cuts of error lines don't count.
pub fn greatest_delivered_cuts()
    // The delivered cuts of three delivered lines and an error line are the seen cuts of the three
    // delivered ones.
    ensures cuts { delivered_cuts three_delivered
        ≡ (1 ∷ 0 ∷ []) ∷ (2 ∷ 1 ∷ []) ∷ (1 ∷ 1 ∷ []) ∷ [] }
    // The greatest delivered cut of three delivered lines is the seen cut of the second line, which
    // contains the seen cuts of the two others.
    ensures three { delivered_cut 2 three_delivered ≡ 2 ∷ 1 ∷ [] }
    // Where one line is delivered, the greatest delivered cut is its seen cut.
    ensures one { delivered_cut 3 worked_lines ≡ 1 ∷ 0 ∷ 0 ∷ [] }
    // Where no line is delivered, all counts of the greatest delivered cut are 0.
    ensures none { delivered_cut 2 ((pending 5 ∷ []) ∷ (unchecked 6 first ∷ []) ∷ []) ≡ 0 ∷ 0 ∷ [] }
{}
