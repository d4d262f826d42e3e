//! What looks and peeks leave as it is in their caller's local.

ghost use Rattle.row_table.specs.Progress.{LooksLeaveWork, PeeksLeaveWork, PeekedWordsStay};

/// A look that doesn't begin the view's scan, and any peek, changes none of its caller's
/// operations, counts, replies and object steps, even if a scan ends with it.
#[tactic(auto, using(crate::proofs::Working::looks_leave_work, crate::proofs::Working::peeks_leave_work))]
pub fn looks_and_peeks_leave_work()
    // A look that begins nothing, or a scan that isn't the view's, changes none of its caller's
    // operations, counts, replies and object steps.
    ensures looks { LooksLeaveWork }
    // A peek changes none of its caller's operations, counts, replies and object steps.
    ensures peeks { PeeksLeaveWork }
{}

/// Each peek in a caller's local is still in it after any event of this caller.
#[tactic(auto, using(crate::proofs::Working::peeked_words_stay))]
pub fn peeked_words_stay()
    ensures { PeekedWordsStay }
{}
