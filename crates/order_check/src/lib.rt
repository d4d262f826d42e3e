//! The test of a given order: a list of places is a legal order of a book, or has a first fault.
#![tactic(auto)]

mod fault;
pub mod laws;
mod order;
mod place;

pub use book_base::Place;
pub use fault::OrderFault;
pub use order::check_order;
