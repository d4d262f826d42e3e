//! Worked cases of told tables, of locality and of an object of one's own.
#![tactic(auto)]

mod bounded_queue;
pub mod laws;
#[cfg(test)]
mod tests;

pub use bounded_queue::{BoundedQueue, REFUSED, TAKE, TAKEN_IN};
