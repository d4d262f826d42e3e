//! What an addition, a store, a load and a swap do to shared words.

ghost use Rattle.shared_words.specs.Histories.{AccessesAct, AccessesLeaveOthers};

/// An addition adds to its word modulo 2^64, a store and a swap set their word, and a load doesn't
/// change its word. No access changes another word.
#[tactic(auto, using(crate::proofs::Words::accesses_act, crate::proofs::Words::accesses_leave_others))]
pub fn accesses_act()
    // After an addition a word is the sum modulo 2^64, after a store or a swap it is the word that
    // was put in, and a load doesn't change it.
    ensures act { AccessesAct }
    // An access doesn't change the words at other places.
    ensures others { AccessesLeaveOthers }
{}
