//! Laws of the split tally, of the one-pass queue and of the meeting: of the forms of their
//! replies, and of what their accesses find.
ghost use Rattle.test_objects.specs.FaultyForms.{SplitsAreFormed, OnePassesAreFormed, MeetingsAreFormed, LastLoadsTellReplies, FlagsAreRaised};
ghost use Rattle.test_objects.specs.FaultyTogether.{QueuesGivePlacesInOrder, QueuesGiveWhatWasPut, MeetingsFindRaisedFlags};

/// The replies of a split tally have the form of a tally's replies.
#[tactic(auto, using(crate::proofs::FaultyForming::splits_are_formed))]
pub fn splits_are_formed()
    ensures { SplitsAreFormed }
{}

/// The replies of a one-pass queue have the form of a queue's replies.
#[tactic(auto, using(crate::proofs::FaultyForming::one_passes_are_formed))]
pub fn one_passes_are_formed()
    ensures { OnePassesAreFormed }
{}

/// The replies of a meeting are `done` or `bad`.
#[tactic(auto, using(crate::proofs::FaultyForming::meetings_are_formed))]
pub fn meetings_are_formed()
    ensures { MeetingsAreFormed }
{}

/// The reply of a call at a meeting is `done` exactly where the call's last load found the other
/// caller's flag up.
pub fn last_loads_tell_replies()
    ensures { LastLoadsTellReplies }
{}

/// A flag of a meeting is up only after the caller to whom it belongs has raised it.
#[tactic(auto, using(crate::proofs::Raising::flags_are_raised))]
pub fn flags_are_raised()
    ensures { FlagsAreRaised }
{}

/// Which words the additions and the exchanges of a one-pass queue found.
pub fn takes_take_what_was_put()
    // Each addition to the queue's counter found the number of additions before it, modulo 2^64.
    ensures places { QueuesGivePlacesInOrder }
    // Each exchange that found an item in a place took the one that the last access to this place
    // before it, a store, had put there.
    ensures items { QueuesGiveWhatWasPut }
{}

/// A load at a meeting finds a flag up only after the caller to whom the flag belongs has raised
/// it.
pub fn loads_find_raised_flags()
    ensures { MeetingsFindRaisedFlags }
{}
