//! Worked reports of a run of two whole calls: what the laws say of them, and which reports of the
//! run are wrong.

ghost use Rattle.std.specs.Prelude.{◌≡◌, true, [], ◌∷◌, map, take};
ghost use Rattle.std.specs.List.{list_any};
ghost use Rattle.world_examples.specs.Schedules.{pair, two_calls, tenfold, silent};
ghost use Rattle.world_core.specs.World.{IsRun};
ghost use Rattle.world_core.specs.History.{IsLinearizable, history_of};
ghost use Rattle.world_core.specs.Calls.{calls_in};
ghost use Rattle.world_examples.specs.JudgedRuns.{locals_after};
ghost use Rattle.reports.specs.Cases.{answer, pending, unchecked, delivered};
ghost use Rattle.report_lines.specs.Lines.{calls_of, any_error, AreLinesOf};
ghost use Rattle.report_lines.specs.Lawful.{IsLawful};
ghost use Rattle.report_examples.specs.ReportedRuns.{five_and_six, fifty, sixty, both_delivered, both_failed, first_failed, nothing};
ghost use Rattle.reports.specs.LawfulErrors.{NoLinearizableRunHasTheseCalls, NoLinearizableRunHasTheseLines};
ghost use Rattle.report_examples.specs.RefusedReports.{with_second, with_first, after_an_error, AreNoReport, StandInOrder, first_place};

/// Delivered lines have places in the order of their calls, and not in an order that leaves one of
/// them out or has another reply. Where no line is delivered, the empty order leaves out none.
pub fn delivered_lines_stand_in_an_order()
    // Both delivered lines have places in the order of the two calls, each with its reply.
    ensures both { StandInOrder both_delivered (first_place 0 50 ∷ first_place 1 60 ∷ []) }
    // Where no line is delivered, the empty order has places for all delivered lines.
    ensures none { StandInOrder both_failed [] }
    // The delivered lines don't both have places in an order that lacks the second call.
    ensures one_left_out { ¬ StandInOrder both_delivered (first_place 0 50 ∷ []) }
    // The delivered lines don't both have places in an order with another reply.
    ensures another_reply { ¬ StandInOrder both_delivered
        (first_place 0 50 ∷ first_place 1 61 ∷ []) }
{}

/// Two error lines are no lawful report for the object that gives ten times the operation, since a
/// run with their calls has a linearizable history. A weaker demand wouldn't refuse them: that no
/// run with a linearizable history has these lines as its calls with their right verdicts. Lines
/// with a false error meet it, since they are the lines of no run.
pub fn false_errors_are_refused()
    // Of two error lines at least one is an error.
    ensures errors { list_any any_error both_failed ≡ true }
    // The steps of the two whole calls are a run.
    ensures run { IsRun pair two_calls }
    // The calls of two error lines are those of the locals after a run of two whole calls.
    ensures calls { map calls_in (locals_after two_calls) ≡ calls_of both_failed }
    // The history of a run of two whole calls is linearizable for the object that gives ten times
    // the operation.
    ensures linearizable { IsLinearizable tenfold (history_of pair two_calls) }
    // Two error lines are no lawful report for the object that gives ten times the operation,
    // whatever the shape of the world, the operations and the allotments.
    ensures no_report { AreNoReport tenfold both_failed }
    // No run with a linearizable history has two error lines, each with the right verdict, for the
    // object that gives ten times the operation.
    ensures of_the_lines { NoLinearizableRunHasTheseLines tenfold both_failed }
    // Some run with a linearizable history has the calls of the two error lines, for the object
    // that gives ten times the operation.
    ensures of_the_calls { ¬ NoLinearizableRunHasTheseCalls tenfold both_failed }
    // Two error lines are a lawful report for the object that always gives 0.
    ensures lawful { IsLawful silent pair five_and_six (5 ∷ 5 ∷ []) both_failed }
    // No run with a linearizable history has the calls of the two error lines, for the object that
    // always gives 0.
    ensures of_lawful_calls { NoLinearizableRunHasTheseCalls silent both_failed }
{}

/// Lines that differ in anything from what a run's locals have aren't the lines of these locals.
pub fn other_lines_are_refused()
    // Lines that leave out a call aren't those of the locals.
    ensures call_left_out { ¬ AreLinesOf silent (locals_after (take 24 two_calls))
        ((unchecked 5 fifty ∷ []) ∷ [] ∷ []) }
    // Lines that leave out a record aren't those of the locals.
    ensures record_left_out { ¬ AreLinesOf silent (locals_after (take 24 two_calls))
        ((pending 5 ∷ []) ∷ (pending 6 ∷ []) ∷ []) }
    // Lines that leave out all calls aren't those of the locals.
    ensures all_left_out { ¬ AreLinesOf tenfold (locals_after two_calls) nothing }
    // Lines with another operation aren't those of the locals.
    ensures operation { ¬ AreLinesOf tenfold (locals_after two_calls)
        (with_second (delivered 7 sixty (1 ∷ 1 ∷ []) ∷ [])) }
    // Lines with another reply aren't those of the locals.
    ensures reply { ¬ AreLinesOf tenfold (locals_after two_calls)
        (with_second (delivered 6 fifty (1 ∷ 1 ∷ []) ∷ [])) }
    // Lines with another view aren't those of the locals.
    ensures seen_view { ¬ AreLinesOf tenfold (locals_after two_calls)
        (with_second (delivered 6 (answer 60 (0 ∷ 1 ∷ [])) (1 ∷ 1 ∷ []) ∷ [])) }
    // Lines with another seen cut aren't those of the locals.
    ensures seen_cut { ¬ AreLinesOf tenfold (locals_after two_calls)
        (with_second (delivered 6 sixty (0 ∷ 1 ∷ []) ∷ [])) }
    // Lines that leave out a seen cut aren't those of the locals.
    ensures cut_left_out { ¬ AreLinesOf tenfold (locals_after two_calls)
        (with_second (unchecked 6 sixty ∷ [])) }
    // Lines with one call more than the locals have aren't those of the locals.
    ensures call_more { ¬ AreLinesOf tenfold (locals_after two_calls)
        (with_second (delivered 6 sixty (1 ∷ 1 ∷ []) ∷ pending 7 ∷ [])) }
    // Lines with a false error aren't those of the locals, though they tell all calls rightly.
    ensures false_error { ¬ AreLinesOf tenfold (locals_after two_calls) first_failed }
    // Lines that deliver what is an error aren't those of the locals.
    ensures missed_error { ¬ AreLinesOf silent (locals_after two_calls) both_delivered }
{}

/// Reports that aren't lawful, each because it fails one part of `IsLawful`. A part without a case
/// here has one in `report_laws`, or follows from the other parts.
pub fn wrong_reports_are_refused()
    // A report whose line has another operation than its caller was given isn't lawful.
    ensures operations { ¬ IsLawful tenfold pair ((5 ∷ []) ∷ (7 ∷ []) ∷ [])
        (5 ∷ 5 ∷ []) both_delivered }
    // A report with more lines of a caller than the caller has operations isn't lawful.
    ensures beyond_operations { ¬ IsLawful tenfold pair five_and_six (6 ∷ 5 ∷ [])
        (with_first (delivered 5 fifty (1 ∷ 0 ∷ []) ∷ pending 0 ∷ [])) }
    // A report with a call that is judged after its caller's stop isn't lawful.
    ensures beyond_stop { ¬ IsLawful tenfold pair five_and_six (4 ∷ 5 ∷ []) both_delivered }
    // A report with an error that is judged after its caller's stop isn't lawful.
    ensures error_beyond_stop { ¬ IsLawful silent pair five_and_six (4 ∷ 5 ∷ []) both_failed }
    // A report with a line after an error line of the same caller isn't lawful.
    ensures after_error { ¬ IsLawful silent pair ((5 ∷ 7 ∷ []) ∷ (6 ∷ []) ∷ [])
        (10 ∷ 5 ∷ []) after_an_error }
    // Lines with a view that lacks its own call are no lawful report.
    ensures view_without_call { AreNoReport tenfold
        (with_first (delivered 5 (answer 50 (0 ∷ 1 ∷ [])) (1 ∷ 0 ∷ []) ∷ [])) }
    // Lines with a seen cut that has too few counts are no lawful report.
    ensures narrow_cut { AreNoReport tenfold (with_first (delivered 5 fifty (1 ∷ []) ∷ [])) }
    // Lines with a seen cut that lacks its own call are no lawful report.
    ensures cut_without_call { AreNoReport tenfold
        (with_second (delivered 6 sixty (1 ∷ 0 ∷ []) ∷ [])) }
{}
