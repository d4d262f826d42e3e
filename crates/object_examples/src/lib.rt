//! Worked runs, histories and transcripts of objects inside the world and outside it: which of them
//! the objects allow, and which they refuse.
#![tactic(auto)]

pub mod faulty_transcripts;
pub mod log_runs;
pub mod one_log;
pub mod tally_runs;
pub mod transcripts;
pub mod word_histories;
