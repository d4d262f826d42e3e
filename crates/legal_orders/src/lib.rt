//! Laws of books and of their legal orders: those that more than one crate wants, and which calls a
//! search for one needn't try; and how the operations and replies of a container are read.
#![tactic(auto)]

pub mod book_laws;
pub mod pruning_laws;
mod reader;

pub use reader::{Reader, Role};
