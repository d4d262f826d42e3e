//! Laws of lawful objects: of the replies to a log, the pairs of one caller, and the words of a
//! tally and of a cell.

ghost use Rattle.test_objects.specs.Replays.{LastReplyIsNext};
ghost use Rattle.test_objects.specs.Pairs.{PairsHaveTheCalls};
ghost use Rattle.test_objects.specs.Forms.{TalliesAreFormed, CellsAreFormed, TalliesCount, CellsHoldTheLast};
ghost use Rattle.test_objects.specs.Together.{TalliesAreCounted, CellsAreRead};

/// The reply to the last operation of a log is the one that the sequential object gives at the list
/// that the operations before it leave.
#[tactic(auto, using(crate::proofs::Replaying::last_reply_is_next))]
pub fn last_reply_is_next()
    ensures { LastReplyIsNext }
{}

/// The operations of a caller's pairs are, in order, those of the caller's entries in the log.
#[tactic(auto, using(crate::proofs::Pairing::pairs_have_the_calls))]
pub fn pairs_have_the_calls()
    ensures { PairsHaveTheCalls }
{}

/// Each reply of a tally's calls has the form of a tally's replies, and each reply of a cell's
/// calls has the form of a cell's replies.
#[tactic(auto, using(crate::proofs::Forming::tallies_are_formed, crate::proofs::Forming::cells_are_formed))]
pub fn replies_are_formed()
    // Each reply of a tally's calls has the form of a tally's replies: a value to the increment,
    // and `bad` to any other operation.
    ensures tallies { TalliesAreFormed }
    // Each reply of a cell's calls has the form of a cell's replies: `done` to a write, a value to
    // the read, and `bad` to any other operation.
    ensures cells { CellsAreFormed }
{}

/// The word of a tally is the number of increments in its history, modulo 2^64, and the word of a
/// cell is the last one stored in its history, or 0 where none was stored.
#[tactic(auto, using(crate::proofs::Counting::tallies_count, crate::proofs::Counting::cells_hold_the_last))]
pub fn words_are_of_histories()
    // The word of a tally is the number of increments in its history, modulo 2^64.
    ensures tallies { TalliesCount }
    // The word of a cell is the last one stored in its history, or 0 where none was stored.
    ensures cells { CellsHoldTheLast }
{}

/// Which words the increments of a tally and the loads of a cell found.
pub fn accesses_find_what_was_left()
    // Each increment of a tally found the number of increments before it, modulo 2^64.
    ensures tallies { TalliesAreCounted }
    // Each load of a cell found the last word stored before it, or 0 where there is none.
    ensures cells { CellsAreRead }
{}
