//! The laws of reports. Each is the contract of a function with nothing in it.

ghost use Rattle.report_lines.specs.Reporting.{WorldsAreLawful, LocalsDetermineLines, ErrorsAreFinal, SeenCutsAreInTheBook, LinesBeforeTheLastAreDelivered, SeenCutsWerePublished, LinearizableRunsHaveNoError};
ghost use Rattle.report_lines.specs.Steps.{NoPhaseIsMade, AnnouncingIsAPhase, AskingIsAPhase, ViewingIsAPhase, PublishingIsAPhase, SeeingIsAPhase};
ghost use Rattle.report_lines.specs.Telling.{NothingIsTold, ToldAsAnnounced, ToldAsAsked, ToldAsViewed, ToldAsPublished, ToldAsSeen};
ghost use Rattle.report_lines.specs.Working.{VerdictsStay, WorkersGoThrough, WorkersHalt, WorkersKeepToTheirAllotments, WorkersLeaveTheLines, WorkersAreLawful};

/// How each of the five phases of a call changes its caller's progress.
pub fn phases_are_made_one_by_one()
    // A caller with no call, no published record and no object step may be one that has made no
    // phase yet.
    ensures none { NoPhaseIsMade }
    // A caller that has judged k calls, and has an operation left, comes one phase further by
    // announcing it.
    ensures announcing { AnnouncingIsAPhase }
    // A caller with an announced call comes one phase further by asking, which changes no progress.
    ensures asking { AskingIsAPhase }
    // A caller with an asked call comes one phase further by the view, which gives the call its
    // record.
    ensures viewing { ViewingIsAPhase }
    // A caller with a recorded call comes one phase further by publishing the record.
    ensures publishing { PublishingIsAPhase }
    // A caller with a published record comes one phase further by its seen cut, with which the call
    // is judged.
    ensures seeing { SeeingIsAPhase }
{}

/// Phase by phase, an object that tells its pairs tells an operation and a reply for each call that
/// it was asked.
pub fn objects_tell_phase_by_phase()
    // Before the first phase an object tells nothing.
    ensures none { NothingIsTold }
    // An announcement adds nothing to what an object has told of its caller.
    ensures announcing { ToldAsAnnounced }
    // When an object is asked, it tells one more pair, of the call's operation and its reply.
    ensures asking { ToldAsAsked }
    // Taking the view adds nothing to what an object has told, where the call's record has the
    // reply that the object told last.
    ensures viewing { ToldAsViewed }
    // A publication adds nothing to what an object has told of its caller.
    ensures publishing { ToldAsPublished }
    // A seen cut adds nothing to what an object has told of its caller.
    ensures seeing { ToldAsSeen }
{}

/// A verdict that is right by a book that a caller gathered stays right by it when this caller has
/// peeked more.
pub fn verdicts_stay()
    ensures { VerdictsStay }
{}

/// What a worker leaves in its caller's local and lines is right where it made its whole allotment,
/// or halted at an error.
pub fn workers_go_through_or_halt()
    // What a worker leaves is right where it made all phases of its allotment and met no error.
    ensures through { WorkersGoThrough }
    // What a worker leaves is right where it halted at an error, after lines without one.
    ensures halted { WorkersHalt }
{}

/// The lines of locals that are together are a lawful report where each caller has the lines of its
/// allotment and has made the phases that they show.
pub fn lawful_from_worlds()
    ensures { WorldsAreLawful }
{}

/// The lines that the workers of all callers leave are a lawful report, though each worker is
/// described by its own caller alone.
pub fn lawful_from_workers()
    // The lines that a worker leaves are right for its operations and its allotment.
    ensures allotted { WorkersKeepToTheirAllotments }
    // The lines that all workers leave are those of the locals that they leave, each with the right
    // verdict by the book of all lines.
    ensures lines { WorkersLeaveTheLines }
    // The lines that all workers leave are a lawful report.
    ensures lawful { WorkersAreLawful }
{}

/// Locals have at most one list of lines, verdicts included.
pub fn locals_determine_lines()
    ensures { LocalsDetermineLines }
{}

/// In a lawful report each delivered line's seen cut is within each error line's seen cut, and
/// isn't equal to it (Castañeda and Rodríguez 2023).
pub fn errors_are_final()
    ensures { ErrorsAreFinal }
{}

/// No line's seen cut counts more records than the book of the lines has, and each line but a
/// caller's last is delivered.
pub fn lines_fit_a_report()
    // The seen cut of a line counts for each caller at most as many records as the book of the
    // lines has of it.
    ensures seen { SeenCutsAreInTheBook }
    // Of a caller's lines that are right for its allotment, each but the last is delivered.
    ensures delivered { LinesBeforeTheLastAreDelivered }
{}

/// The seen cut of a line was right at one moment: at some moment of a run that ends with these
/// locals, each caller had published exactly as many records as the cut counts for it (Afek and
/// others 1993).
pub fn seen_cuts_were_published()
    ensures { SeenCutsWerePublished }
{}

/// Where the object history of a run is linearizable, no line of the run is an error.
pub fn linearizable_runs_have_no_error()
    ensures { LinearizableRunsHaveNoError }
{}
