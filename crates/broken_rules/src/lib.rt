//! Finds a rule of its kind that a book breaks, if it breaks one, and the calls by which it does;
//! and laws on the runs of the sequential objects, each in its object's own words.
#![tactic(auto)]

mod act;
mod breaking;
mod demand;
mod entry;
pub mod laws;
mod line;
pub mod object_laws;
mod rule;
mod search;
mod tally;

pub use line::broken_line;
pub use rule::{BrokenRule, Rule};
pub use search::broken_rule;
