//! Entries that refute a queue's book by a closed list of standings, checked without a search.
#![tactic(auto)]

mod check;
mod closed;
mod entry;
mod fault;
mod find;
pub mod laws;
mod moves;
mod standings;

pub use check::check_pairs;
pub use entry::{Move, PairEntry};
pub use fault::PairFault;
pub use find::find_pairs;
