//! Worked reports: runs and lines that meet the premises of the laws, and reports of these runs
//! that aren't lawful.

ghost use Rattle.std.specs.Prelude.{[], ◌∷◌, take};
ghost use Rattle.world_examples.specs.Schedules.{pair, two_calls, tenfold, silent, local_at as local_after};
ghost use Rattle.world_core.specs.World.{IsRun};
ghost use Rattle.world_core.specs.Calls.{AreTogether};
ghost use Rattle.world_examples.specs.JudgedRuns.{locals_after};
ghost use Rattle.report_lines.specs.declared.line.LineEnd.TheVariants.{Delivered};
ghost use Rattle.report_lines.specs.Lines.{lines_at, AreLinesOf};
ghost use Rattle.report_lines.specs.Lawful.{IsAllotted, AreSeen, IsLawful};
ghost use Rattle.report_lines.specs.Workers.{IsJudgedBy};
ghost use Rattle.report_lines.specs.Reporting.{HaveMade};
ghost use Rattle.report_lines.specs.Working.{HaveWorked};
ghost use Rattle.report_examples.specs.ReportedRuns.{five_and_six, both_delivered, both_failed, first_failed, seen_otherwise, sixty, stopped, nothing, one_unchecked, second_begun, one_judging};

/// A run of two whole calls has two lawful reports: where the object should give ten times the
/// operation, both calls are delivered; where it should always give 0, both are errors. Each other
/// list of lines that is tried is no lawful report.
pub fn a_run_is_reported()
    // The steps of the two whole calls are a run.
    ensures run { IsRun pair two_calls }
    // For the object that gives ten times the operation, the lines of the locals after the run are
    // both delivered.
    ensures lines { AreLinesOf tenfold (locals_after two_calls) both_delivered }
    // Each of the two callers has made five phases, and its lines show them.
    ensures made { HaveMade pair five_and_six (5 ∷ 5 ∷ []) (locals_after two_calls) both_delivered }
    // Both lines delivered are a lawful report for the object that gives ten times the operation.
    ensures lawful { IsLawful tenfold pair five_and_six (5 ∷ 5 ∷ []) both_delivered }
    // For the object that always gives 0, the lines of the locals after the run are both errors.
    ensures errors { AreLinesOf silent (locals_after two_calls) both_failed }
    // Both lines as errors are a lawful report for the object that always gives 0.
    ensures lawful_errors { IsLawful silent pair five_and_six (5 ∷ 5 ∷ []) both_failed }
    // Both lines as errors are no lawful report for the object that gives ten times the operation.
    ensures false_error { ¬ IsLawful tenfold pair five_and_six (5 ∷ 5 ∷ []) both_failed }
    // An error for the first call alone is no lawful report for the object that gives ten times the
    // operation.
    ensures one_false_error { ¬ IsLawful tenfold pair five_and_six (5 ∷ 5 ∷ []) first_failed }
    // Both lines delivered are no lawful report for the object that always gives 0.
    ensures missed_errors { ¬ IsLawful silent pair five_and_six (5 ∷ 5 ∷ []) both_delivered }
    // A delivered line for the second call alone is no lawful report for the object that always
    // gives 0.
    ensures one_missed_error { ¬ IsLawful silent pair five_and_six (5 ∷ 5 ∷ []) first_failed }
    // Lines whose seen cuts aren't comparable are no lawful report.
    ensures other_cuts { ¬ IsLawful tenfold pair five_and_six (5 ∷ 5 ∷ []) seen_otherwise }
{}

/// An error is its caller's last line, also where the caller was given phases for a further call.
pub fn an_error_ends_the_lines()
    // Lines that end with errors are a lawful report also where each caller was given a second
    // call.
    ensures lawful { IsLawful silent pair ((5 ∷ 7 ∷ []) ∷ (6 ∷ 8 ∷ []) ∷ [])
        (10 ∷ 10 ∷ []) both_failed }
    // Delivered lines without the second calls are no lawful report where each caller was given the
    // ten phases of two calls.
    ensures left_out { ¬ IsLawful tenfold pair ((5 ∷ 7 ∷ []) ∷ (6 ∷ 8 ∷ []) ∷ [])
        (10 ∷ 10 ∷ []) both_delivered }
{}

/// The reports of callers that stopped before they judged their calls, and of callers that made no
/// call.
pub fn stopped_callers_are_reported()
    // The locals after 24 steps are those of one reachable world.
    ensures run { AreTogether pair (locals_after (take 24 two_calls)) }
    // After 24 steps the first caller has made three phases and the second two, and their lines are
    // an unchecked and a pending one.
    ensures made { HaveMade pair five_and_six (3 ∷ 2 ∷ [])
        (locals_after (take 24 two_calls)) stopped }
    // An unchecked and a pending line are a lawful report of callers that were given three and two
    // phases.
    ensures lawful { IsLawful silent pair five_and_six (3 ∷ 2 ∷ []) stopped }
    // Empty lists of lines are a lawful report of two callers that were given no phase.
    ensures without_calls { IsLawful silent pair five_and_six (0 ∷ 0 ∷ []) nothing }
    // An empty list of lines is in no lawful report where its caller was given a phase.
    ensures too_few { ¬ IsLawful silent pair five_and_six (0 ∷ 1 ∷ []) nothing }
    // The lines of one caller are no lawful report of two callers.
    ensures a_caller_left_out { ¬ IsLawful silent pair five_and_six (0 ∷ 0 ∷ []) ([] ∷ []) }
{}

/// Where a caller has one row, a line of its second call is in no lawful report, since no reachable
/// world has that call.
pub fn calls_beyond_the_rows_are_of_no_world()
    // A delivered and a pending line are right for a caller that was given six phases.
    ensures allotted { IsAllotted (5 ∷ 7 ∷ []) 6 (lines_at second_begun 0) }
    // The seen cuts of the lines with a second call fit one another and the published records.
    ensures seen { AreSeen (1 ∷ 0 ∷ []) second_begun }
    // Lines of a second call are no lawful report where each caller has one row.
    ensures unlawful { ¬ IsLawful tenfold pair ((5 ∷ 7 ∷ []) ∷ (6 ∷ []) ∷ [])
        (6 ∷ 0 ∷ []) second_begun }
{}

/// Two workers leave a lawful report where caller 0 is stopped before it judges, and caller 1 has
/// judged by words that it peeked. Their lines would be no lawful report if caller 0 had been
/// stopped before it published.
pub fn workers_leave_a_report()
    // The steps in which caller 1 judges its call, and caller 0 doesn't judge its own, are a run.
    ensures run { IsRun pair one_judging }
    // The workers of both callers have worked: caller 0 was stopped after four phases, and caller 1
    // made five.
    ensures worked { HaveWorked tenfold pair five_and_six (4 ∷ 5 ∷ [])
        (locals_after one_judging) one_unchecked }
    // An unchecked line of caller 0 and a delivered one of caller 1, as these workers leave them,
    // are a lawful report.
    ensures lawful { IsLawful tenfold pair five_and_six (4 ∷ 5 ∷ []) one_unchecked }
    // The lines of the two workers are no lawful report where caller 0 was given three phases, and
    // so published no record.
    ensures unpublished { ¬ IsLawful tenfold pair five_and_six (3 ∷ 5 ∷ []) one_unchecked }
    // Before caller 1 peeked a word, a verdict of its own wasn't right by a book that it had
    // gathered.
    ensures unread { ¬ IsJudgedBy tenfold 2 (local_after two_calls 1)
        (Delivered sixty (1 ∷ 1 ∷ [])) }
    // After its peeks, caller 1's verdict is right by a book that it has gathered.
    ensures read { IsJudgedBy tenfold 2 (local_after one_judging 1) (Delivered sixty (1 ∷ 1 ∷ [])) }
{}
