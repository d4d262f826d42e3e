//! Worked histories: which words they leave, which of them are lawful, and which transcripts
//! callers can have of them.

ghost use Rattle.std.specs.Prelude.{◌≡◌, [], ◌∷◌, ◌++◌};
ghost use Rattle.shared_words.specs.Deeds as deeds;
ghost use Rattle.shared_words.specs.Histories.{access, deeds_by, word_at, IsLawfulHistory};
ghost use Rattle.shared_words.specs.Transcripts.{AreOfOneHistory};
ghost use Rattle.object_examples.specs.WordHistories.{on_two_words, all_may, additions_may, adds_1, adds, three_additions, transcript, told_by_0, told_by_1};

/// Which words a worked history leaves, and which deeds each caller has in it.
pub fn histories_leave_words()
    // Word 0 is left as the 9 that it was swapped for.
    ensures swapped { word_at 0 on_two_words ≡ 9 }
    // Word 1 is left as the 7 that was stored.
    ensures stored { word_at 1 on_two_words ≡ 7 }
    // A word without an access is left as 0.
    ensures untouched { word_at 2 on_two_words ≡ 0 }
    // An addition of 3 to the greatest word leaves 2.
    ensures wrapped { word_at 0 (access 0 (deeds.Stored 0 18446744073709551615)
        ∷ access 0 (deeds.Added 0 3 18446744073709551615) ∷ []) ≡ 2 }
    // The deeds of caller 1 are its store and its swap.
    ensures second { deeds_by 1 on_two_words ≡ deeds.Stored 1 7 ∷ deeds.Swapped 0 9 5 ∷ [] }
    // A caller without an access has no deed.
    ensures third { deeds_by 2 on_two_words ≡ [] }
{}

/// A history is lawful where each access may be made, and found what those before it left.
#[tactic(auto, using(crate::proofs::WordHistories::two_words_lawful, crate::proofs::WordHistories::store_forbidden, crate::proofs::WordHistories::addition_of_what_was, crate::proofs::WordHistories::load_of_what_was, crate::proofs::WordHistories::swap_of_what_was, crate::proofs::WordHistories::load_of_1_at_first, crate::proofs::WordHistories::load_of_another_word))]
pub fn histories_are_lawful()
    // A history is lawful in which each access found what those before it left.
    ensures right { IsLawfulHistory all_may on_two_words }
    // A history with a store isn't lawful where callers may make additions alone.
    ensures forbidden { ¬ IsLawfulHistory additions_may on_two_words }
    // An addition can't find the word that the addition before it found.
    ensures addition { ¬ IsLawfulHistory all_may (adds 0 0 ∷ adds 1 0 ∷ []) }
    // A load can't find the word that the store before it replaced.
    ensures load { ¬ IsLawfulHistory all_may
        (access 0 (deeds.Stored 0 7) ∷ access 1 (deeds.Loaded 0 0) ∷ []) }
    // A swap can't find the word that the store before it replaced.
    ensures swap { ¬ IsLawfulHistory all_may
        (access 0 (deeds.Stored 0 7) ∷ access 1 (deeds.Swapped 0 9 0) ∷ []) }
    // The first load can't find 1.
    ensures first { ¬ IsLawfulHistory all_may (access 0 (deeds.Loaded 0 1) ∷ []) }
    // A load can't find what was stored in another word.
    ensures other_word { ¬ IsLawfulHistory all_may
        (access 0 (deeds.Stored 1 7) ∷ access 1 (deeds.Loaded 0 7) ∷ []) }
{}

/// Two callers' transcripts are of one history where their calls are made of just the deeds that
/// each caller has there, and nobody else has a deed there.
#[tactic(auto, using(crate::proofs::WordHistories::both_told, crate::proofs::WordHistories::caller_lacking, crate::proofs::WordHistories::callers_out_of_order, crate::proofs::WordHistories::stranger, crate::proofs::WordHistories::call_untold, crate::proofs::WordHistories::replies_exchanged, crate::proofs::WordHistories::both_found_0))]
pub fn transcripts_are_of_one_history()
    // The transcripts of two callers are of one history in which each caller has just the deeds of
    // its calls.
    ensures right { AreOfOneHistory all_may adds_1 2 three_additions
        (told_by_0 ∷ told_by_1 ∷ []) }
    // The list of transcripts can't lack that of the second of two callers.
    ensures a_caller_lacks { ¬ AreOfOneHistory all_may adds_1 2 (adds 0 0 ∷ [])
        (transcript 0 ((0, 0) ∷ []) ∷ []) }
    // The transcripts can't stand in another order than the callers.
    ensures out_of_order { ¬ AreOfOneHistory all_may adds_1 2 three_additions
        (told_by_1 ∷ told_by_0 ∷ []) }
    // The history can't have an access of a third caller.
    ensures stranger { ¬ AreOfOneHistory all_may adds_1 2 (three_additions ++ adds 2 3 ∷ [])
        (told_by_0 ∷ told_by_1 ∷ []) }
    // The transcript of a caller can't leave out its last call.
    ensures untold { ¬ AreOfOneHistory all_may adds_1 2 three_additions
        (transcript 0 ((0, 0) ∷ []) ∷ told_by_1 ∷ []) }
    // The transcript of a caller can't have the replies of its two calls exchanged.
    ensures exchanged { ¬ AreOfOneHistory all_may adds_1 2 three_additions
        (transcript 0 ((0, 2) ∷ (0, 0) ∷ []) ∷ told_by_1 ∷ []) }
    // The additions of two callers can't both have found 0.
    ensures unlawful { ¬ AreOfOneHistory all_may adds_1 2 (adds 0 0 ∷ adds 1 0 ∷ [])
        (transcript 0 ((0, 0) ∷ []) ∷ transcript 1 ((0, 0) ∷ []) ∷ []) }
{}
