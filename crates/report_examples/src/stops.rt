//! Worked reports of two callers that stop, which show that a report belongs to one stop alone.

ghost use Rattle.std.specs.Prelude.{◌++◌, take};
ghost use Rattle.world_examples.specs.Schedules.{announced_both, published_one, two_calls};
ghost use Rattle.report_examples.specs.Stops.{IsStoppedReport};

/// A report belongs to one stop alone, though its lines don't show which. A caller that stops after
/// its third phase has its record, and one that stops after its fourth has also published it. Both
/// leave the same lines, but the report of one isn't that of the other.
pub fn stops_are_kept_to_the_phase()
    // A report with an unchecked call whose record isn't published is that of a caller that stops
    // after its third phase.
    ensures recorded { IsStoppedReport 3 (take 24 two_calls) }
    // A report with an unchecked call whose record is published is that of a caller that stops
    // after its fourth phase.
    ensures published { IsStoppedReport 4 (announced_both ++ published_one) }
    // A report with an unchecked call whose record isn't published isn't that of a caller that
    // stops after its fourth phase.
    ensures unpublished { ¬ IsStoppedReport 4 (take 24 two_calls) }
    // A report with an unchecked call whose record is published isn't that of a caller that stops
    // after its third phase.
    ensures published_too_soon { ¬ IsStoppedReport 3 (announced_both ++ published_one) }
{}
