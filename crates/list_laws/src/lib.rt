//! Laws of lists and numbers that the standard library lacks: lemmas alone, for the proofs of the
//! crates above.
#![tactic(auto)]
