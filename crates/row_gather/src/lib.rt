//! Gathers books: reads from the rows of a table the book at a cut, with the records that the cut
//! holds and the calls that some of their views hold. The book grows from the one that its caller
//! gathered before.
#![tactic(auto)]

mod answers;
mod gather;
mod gathered;
mod held;
pub mod laws;
mod operations;
mod records;

pub use gather::grow_at;
pub use gathered::Gathered;
