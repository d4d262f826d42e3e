//! Objects of one's own: tables of the steps that were told of an object, the sequential object of
//! a table, and searches for a legal order by a table, which ask for the steps that they lack.
#![tactic(auto)]

mod answer;
mod fault;
pub mod laws;
mod table;
mod told_search;
mod walk;

pub use answer::Answer;
pub use fault::{PromiseFault, TellFault};
pub use table::{ToldTable, Transition};
pub use told_search::ToldSearch;
