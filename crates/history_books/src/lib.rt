//! Books of timed calls: calls of a log, with the moments of their invocations and returns, become
//! the calls of a book that has the log's precedence.
#![tactic(auto)]

mod history_book;
pub mod laws;
mod sweep;
mod timed_call;

pub use history_book::{HistoryBook, HistoryError, book_of};
pub use timed_call::{Answer, TimedCall, are_in_order};
