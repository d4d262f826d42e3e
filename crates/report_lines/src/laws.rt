//! The progress of a caller, as the parts of its local determine it, and the cuts of verdicts. Each
//! law is the contract of a function with nothing in it.

ghost use Rattle.std.specs.Prelude.{◌≡◌, ℕ, List, Some, None};
ghost use Rattle.book_base.specs.declared.call.Record.{Record};
ghost use Rattle.report_lines.specs.declared.line.LineEnd.TheVariants.{Pending, Unchecked, Delivered, Error};
ghost use Rattle.report_lines.specs.Lines.{seen_in, delivered_in, error_in, VerdictsAreAtSeenCuts};
ghost use Rattle.report_lines.specs.Progress.{TheLastCallGoesOn};
ghost use Rattle.report_lines.specs.Account.{NothingGrows, OperationsAreCalls, ObjectStepsAreOfTheLastCall, RepliesAreNoRecords, ViewsMakeRecords, PublicationsCount, SeenCutsAreOfTheLastCall, AnnouncementsAreCalls, ObjectStepsCount, PublishesCount};

/// How a caller's progress follows from its local: which part of the progress grows as one part of
/// the local grows.
pub fn locals_tell_how_far_callers_are()
    // Where a caller's operations, replies, views, seen cuts, published records and object steps
    // stay, its progress stays.
    ensures nothing { NothingGrows }
    // Where an announcing caller's local gains one operation and nothing else, its progress gains
    // one call, with this operation.
    ensures operations { OperationsAreCalls }
    // Where a caller's local gains one object step and nothing else, its progress has this step as
    // the last one.
    ensures steps { ObjectStepsAreOfTheLastCall }
    // Where an asking caller's local gains one reply and nothing else, its progress stays.
    ensures replies { RepliesAreNoRecords }
    // Where a viewing caller's local gains one view and nothing else, the last call of its progress
    // has its record, with this view.
    ensures views { ViewsMakeRecords }
    // Where a caller's local counts one more published record and gains nothing else, its progress
    // counts one more published record.
    ensures publications { PublicationsCount }
    // Where a judging caller's local gains one seen cut and nothing else, the last call of its
    // progress has this seen cut.
    ensures seen { SeenCutsAreOfTheLastCall }
{}

/// What three kinds of event add to their caller's progress: an announcement a call, an object step
/// this step as the last one, and a publication a published record.
pub fn events_take_callers_on()
    // An announcement adds a call, with the staged operation, to its caller's progress.
    ensures announcements { AnnouncementsAreCalls }
    // An object step is added to its caller's progress as the last one.
    ensures steps { ObjectStepsCount }
    // A publication adds a published record to its caller's progress.
    ensures publications { PublishesCount }
{}

/// Where only the last call of a list gets further, all calls before it stay as they are.
pub fn the_last_call_goes_on()
    ensures { TheLastCallGoesOn }
{}

/// The verdict of a line is on the book at the line's seen cut: an error has its own seen cut, and no
/// other line has one of an error.
#[tactic(auto, using(crate::proofs::Verdicts::verdicts_are_at_seen_cuts))]
pub fn verdicts_are_at_seen_cuts()
    // The seen cut of an error line is the cut that it ends with, and it is the cut of an error.
    ensures error { (r : Record) (cut : List ℕ) → (seen_in (Error r cut) ≡ Some cut)
        × (error_in (Error r cut) ≡ Some cut) × (delivered_in (Error r cut) ≡ None) }
    // The seen cut of a delivered line is the cut that it ends with, and it is no cut of an error.
    ensures delivered { (r : Record) (cut : List ℕ) → (seen_in (Delivered r cut) ≡ Some cut)
        × (delivered_in (Delivered r cut) ≡ Some cut) × (error_in (Delivered r cut) ≡ None) }
    // A pending line and an unchecked one have no seen cut.
    ensures none { (seen_in Pending ≡ None) × ((r : Record) → seen_in (Unchecked r) ≡ None) }
    // In lines that have the right verdicts, the book at the seen cut of an error has no legal
    // order, and the book at the seen cut of a delivered call has one.
    ensures judged { VerdictsAreAtSeenCuts }
{}
