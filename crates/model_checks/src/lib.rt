//! Checks of histories by a model of one's own, whose steps are asked for: calls that begin and end
//! make a book, and a search of it asks for the steps that it lacks.
#![tactic(auto)]

mod answer;
mod check;
pub mod laws;
mod request;
#[cfg(test)]
mod tests;
mod words;

pub use answer::ModelAnswer;
pub use check::ModelCheck;
pub use request::{ModelReply, ModelRequest, ModelStep};
pub use words::{operation_number, operation_word};
