//! Worked histories of a split tally, of a one-pass queue and of a meeting: which transcripts two
//! callers may have of them, and which they can't have.

ghost use Rattle.std.specs.Prelude.{[], ◌∷◌, ◌++◌};
ghost use Rattle.seq_objects.specs.Replies.{reply_none, reply_value};
ghost use Rattle.object_examples.specs.Transcripts.{counts_once};
ghost use Rattle.test_objects.specs.FaultyTogether.{TellOneSplit, TellOneQueue, TellOneMeeting};
ghost use Rattle.object_examples.specs.FaultyTranscripts.{both_load_first, one_by_one, enqueues_5, dequeues, put_5, finds_at_0, both_raise_first, found_too_early, raises_the_other, meets};

/// Two callers of a split tally make an increment each.
#[tactic(auto, using(crate::proofs::FaultyTranscripts::split_told, crate::proofs::FaultyTranscripts::split_apart_told, crate::proofs::FaultyTranscripts::store_missed, crate::proofs::FaultyTranscripts::stores_another, crate::proofs::FaultyTranscripts::tells_another))]
pub fn split_tallies_are_told()
    // Where both callers load before either stores, both increments reply 0, and one is lost.
    ensures right { TellOneSplit 2 (both_load_first 1)
        (counts_once 0 (reply_value 0) ∷ counts_once 1 (reply_value 0) ∷ []) }
    // Where one increment ends before the other begins, they reply 0 and 1.
    ensures apart { TellOneSplit 2 (one_by_one 1 2)
        (counts_once 0 (reply_value 0) ∷ counts_once 1 (reply_value 1) ∷ []) }
    // An increment that begins after the other one has ended can't have found 0.
    ensures missed { ¬ TellOneSplit 2 (one_by_one 0 1)
        (counts_once 0 (reply_value 0) ∷ counts_once 1 (reply_value 0) ∷ []) }
    // An increment can't store two more than it found.
    ensures two_more { ¬ TellOneSplit 2 (both_load_first 2)
        (counts_once 0 (reply_value 0) ∷ counts_once 1 (reply_value 0) ∷ []) }
    // An increment can't reply with the word that it stored.
    ensures stored { ¬ TellOneSplit 2 (both_load_first 1)
        (counts_once 0 (reply_value 1) ∷ counts_once 1 (reply_value 0) ∷ []) }
{}

/// A caller of a one-pass queue with two places enqueues 5, and another one dequeues.
#[tactic(auto, using(crate::proofs::FaultyTranscripts::queue_told, crate::proofs::FaultyTranscripts::taken_twice, crate::proofs::FaultyTranscripts::item_missed, crate::proofs::FaultyTranscripts::word_told, crate::proofs::FaultyTranscripts::not_taken))]
pub fn one_pass_queues_are_told()
    // A dequeue after the enqueue finds 6 in place 0, and replies with 5.
    ensures right { TellOneQueue 2 2 (put_5 ++ finds_at_0 1 6)
        (enqueues_5 ∷ dequeues 1 (reply_value 5) ∷ []) }
    // Two dequeues can't both find the one item.
    ensures twice { ¬ TellOneQueue 2 3 (put_5 ++ finds_at_0 1 6 ++ finds_at_0 2 6)
        (enqueues_5 ∷ dequeues 1 (reply_value 5) ∷ dequeues 2 (reply_value 5) ∷ []) }
    // A dequeue after the enqueue can't find place 0 empty.
    ensures missed { ¬ TellOneQueue 2 2 (put_5 ++ finds_at_0 1 0)
        (enqueues_5 ∷ dequeues 1 reply_none ∷ []) }
    // A dequeue can't reply with the word of the place, which is one more than the item.
    ensures word { ¬ TellOneQueue 2 2 (put_5 ++ finds_at_0 1 6)
        (enqueues_5 ∷ dequeues 1 (reply_value 6) ∷ []) }
    // A dequeue that found an item can't reply `none`.
    ensures none { ¬ TellOneQueue 2 2 (put_5 ++ finds_at_0 1 6)
        (enqueues_5 ∷ dequeues 1 reply_none ∷ []) }
{}

/// Two callers of a meeting make a call each.
#[tactic(auto, using(crate::proofs::FaultyTranscripts::meeting_told, crate::proofs::FaultyTranscripts::flag_too_early, crate::proofs::FaultyTranscripts::other_flag_raised))]
pub fn meetings_are_told()
    // Where both callers raise their flags before either loads one, both replies are `done`.
    ensures right { TellOneMeeting 2 both_raise_first (meets 0 ∷ meets 1 ∷ []) }
    // A caller can't find the other caller's flag up before that caller has raised it.
    ensures early { ¬ TellOneMeeting 2 found_too_early (meets 0 ∷ meets 1 ∷ []) }
    // A caller can't raise the other caller's flag.
    ensures other { ¬ TellOneMeeting 2 raises_the_other (meets 0 ∷ meets 1 ∷ []) }
{}
