//! What a search for a legal order is told of books of the eight kinds.
#![tactic(auto)]

mod keyed;
mod readers;
mod searched_kind;

pub use readers::{PqueueReader, QueueReader, RegisterReader, StackReader};
pub use searched_kind::SearchedKind;
