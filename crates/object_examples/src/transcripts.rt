//! Worked histories of a tally and of a cell: which transcripts two callers may have of them, and
//! which they can't have.

ghost use Rattle.std.specs.Prelude.{List, [], ◌∷◌};
ghost use Rattle.seq_objects.specs.Replies.{reply_value};
ghost use Rattle.shared_words.specs.Deeds as deeds;
ghost use Rattle.shared_words.specs.Histories.{Access, access};
ghost use Rattle.object_examples.specs.WordHistories.{adds, three_additions};
ghost use Rattle.test_objects.specs.Together.{TellOneTally, TellOneCell};
ghost use Rattle.object_examples.specs.Transcripts.{counts_0_and_2, counts_once, writes_7, reads_value, stored_then_loaded, loaded_then_stored};

/// Two callers of a tally make three increments.
#[tactic(auto, using(crate::proofs::TallyTranscripts::tally_told, crate::proofs::TallyTranscripts::earlier_count, crate::proofs::TallyTranscripts::both_count_0, crate::proofs::TallyTranscripts::both_reply_0, crate::proofs::TallyTranscripts::increment_untold, crate::proofs::TallyTranscripts::increment_not_made, crate::proofs::TallyTranscripts::adds_2))]
pub fn tallies_are_told()
    // Each of three increments replies with the number of those before it, and a call that the
    // tally doesn't know adds nothing.
    ensures right { TellOneTally 2 three_additions
        (counts_0_and_2 ∷ counts_once 1 (reply_value 1) ∷ []) }
    // An increment can't reply with a word that an earlier increment found.
    ensures earlier { ¬ TellOneTally 2 three_additions
        (counts_0_and_2 ∷ counts_once 1 (reply_value 0) ∷ []) }
    // Two increments can't both have found 0.
    ensures both { ¬ TellOneTally 2 (adds 0 0 ∷ adds 1 0 ∷ [])
        (counts_once 0 (reply_value 0) ∷ counts_once 1 (reply_value 0) ∷ []) }
    // The history can't have an increment that is in no transcript.
    ensures untold { ¬ TellOneTally 2 three_additions
        (counts_once 0 (reply_value 0) ∷ counts_once 1 (reply_value 1) ∷ []) }
    // The transcript of a caller can't have an increment that the history doesn't have.
    ensures not_made { ¬ TellOneTally 2 (adds 0 0 ∷ [])
        (counts_once 0 (reply_value 0) ∷ counts_once 1 (reply_value 1) ∷ []) }
    // No history whatever has two increments that both reply 0.
    ensures no_history { (history : List Access) → ¬ TellOneTally 2 history
        (counts_once 0 (reply_value 0) ∷ counts_once 1 (reply_value 0) ∷ []) }
    // An increment of a tally can't add 2 to the word.
    ensures twice { ¬ TellOneTally 1 (access 0 (deeds.Added 0 2 0) ∷ [])
        (counts_once 0 (reply_value 0) ∷ []) }
{}

/// A caller of a cell writes, and another one reads.
#[tactic(auto, using(crate::proofs::TallyTranscripts::cell_told, crate::proofs::TallyTranscripts::cell_told_before, crate::proofs::TallyTranscripts::write_missed, crate::proofs::TallyTranscripts::another_reply, crate::proofs::TallyTranscripts::another_word, crate::proofs::TallyTranscripts::read_by_a_swap))]
pub fn cells_are_told()
    // A read after the write replies with what was written.
    ensures right { TellOneCell 2 (stored_then_loaded 7 7) (writes_7 ∷ reads_value 7 ∷ []) }
    // A read before the write replies with 0.
    ensures before { TellOneCell 2 loaded_then_stored (writes_7 ∷ reads_value 0 ∷ []) }
    // A read after the write can't have found 0.
    ensures missed { ¬ TellOneCell 2 (stored_then_loaded 7 0) (writes_7 ∷ reads_value 0 ∷ []) }
    // A read can't reply with another word than it found.
    ensures another_reply { ¬ TellOneCell 2 (stored_then_loaded 7 7)
        (writes_7 ∷ reads_value 0 ∷ []) }
    // A write of 7 can't store 8.
    ensures another_word { ¬ TellOneCell 2 (stored_then_loaded 8 8)
        (writes_7 ∷ reads_value 8 ∷ []) }
    // A read can't swap the word that it finds for 0.
    ensures swapped { ¬ TellOneCell 2
        (access 0 (deeds.Stored 0 7) ∷ access 1 (deeds.Swapped 0 0 7) ∷ [])
        (writes_7 ∷ reads_value 7 ∷ []) }
{}
