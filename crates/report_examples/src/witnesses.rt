//! Worked cases: what the definitions say of lines that are written out.

ghost use Rattle.std.specs.Prelude.{◌≡◌, ◌∷◌, [], true, replicate};
ghost use Rattle.std.specs.List.{list_any};
ghost use Rattle.report_lines.specs.Lines.{any_error};
ghost use Rattle.reports.specs.Findings.{IsReport, IsFirstError, IsWitness};
ghost use Rattle.reports.specs.Tally.{counts_of};
ghost use Rattle.reports.specs.Cases.{pending, worked_lines, of_queue, worked};
ghost use Rattle.report_examples.specs.Lines.{call};
ghost use Rattle.report_examples.specs.Witnesses.{worked_witness, after_pending, after_unchecked, after_error, own_unseen, of_two_callers, one_too_many, no_operation, no_reply, crossing, two_errors};

/// Lines with all four ends are a report, and the second caller's error has its witness.
pub fn a_report_has_a_witness()
    // Lines of three callers with all four ends are a report of a queue.
    ensures report { IsReport worked }
    // Where only caller 1 has an error line, that line is the first error, and its seen cut counts
    // one record of each of the first two callers.
    ensures first { IsFirstError worked_lines (call 1 0) (1 ∷ 1 ∷ 0 ∷ []) }
    // The witness of lines whose one error saw a record of each of the first two callers is the
    // book with these two records and the calls that their views hold.
    ensures witness { IsWitness worked_lines worked_witness }
    // Of lines with all four ends at least one is an error.
    ensures any { list_any any_error worked_lines ≡ true }
    // Four lines, one with each end, count as four calls, of which one is delivered and one is an
    // error.
    ensures counts { counts_of worked_lines ≡ record { calls = 4; delivered = 1; errors = 1 } }
{}

/// Of two errors of two callers, that of the caller with the lower number is the first.
pub fn the_earlier_callers_error_is_first()
    // Of two errors, one of caller 0 and one of caller 1, that of caller 0 is the first.
    ensures first { IsFirstError two_errors (call 0 0) (1 ∷ 0 ∷ []) }
    // Of two errors, one of caller 0 and one of caller 1, that of caller 1 isn't the first.
    ensures second { ¬ IsFirstError two_errors (call 1 0) (1 ∷ 1 ∷ []) }
    // Two error lines count as two calls, none of them delivered, and two errors.
    ensures counts { counts_of two_errors ≡ record { calls = 2; delivered = 0; errors = 2 } }
{}

/// Lines are no report where one follows a line that isn't delivered, where a seen cut doesn't fit
/// the book of the lines, where two views aren't comparable, where an operation or a reply is no
/// word of a text, or where there are no callers, or more callers or calls than a text may have.
pub fn lines_that_are_no_report()
    // Lines with one after a pending line are no report.
    ensures after_pending { ¬ IsReport (of_queue after_pending) }
    // Lines with one after an unchecked line are no report.
    ensures after_unchecked { ¬ IsReport (of_queue after_unchecked) }
    // Lines with one after an error line are no report.
    ensures after_error { ¬ IsReport (of_queue after_error) }
    // A line whose seen cut lacks its own call is in no report.
    ensures own_unseen { ¬ IsReport (of_queue own_unseen) }
    // A line whose seen cut has more counts than there are callers is in no report.
    ensures of_two_callers { ¬ IsReport (of_queue of_two_callers) }
    // A line whose seen cut counts more records than its caller has is in no report.
    ensures one_too_many { ¬ IsReport (of_queue one_too_many) }
    // A line whose operation is no operation word is in no report.
    ensures no_operation { ¬ IsReport (of_queue no_operation) }
    // A line whose reply is no reply word is in no report.
    ensures no_reply { ¬ IsReport (of_queue no_reply) }
    // Lines with two views of which neither is within the other are no report.
    ensures crossing { ¬ IsReport (of_queue crossing) }
    // Lines of no caller are no report.
    ensures no_callers { ¬ IsReport (of_queue []) }
    // Lines of 17 callers are no report.
    ensures too_many_callers { ¬ IsReport (of_queue (replicate 17 [])) }
    // Lines of a caller with 257 calls are no report.
    ensures too_many_calls { ¬ IsReport (of_queue (replicate 257 (pending 5) ∷ [])) }
{}
