//! Worked cases: what the definitions of streams and of residues say of small ones.
#![tactic(auto)]

pub mod laws;
