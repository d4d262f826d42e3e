//! What a report says: a line for each call of each caller, how far a caller has come after a
//! number of phases, and when the lines are lawful; the lines of a reachable world are.
#![tactic(auto)]

pub mod laws;
mod line;
pub mod report_laws;

pub use line::{Line, LineEnd};
