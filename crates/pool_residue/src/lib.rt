//! Descriptions of the configurations of a queue or a priority queue that keep no order among the
//! items, and their laws.
#![tactic(auto)]

mod container;
pub mod laws;

pub use container::Container;
