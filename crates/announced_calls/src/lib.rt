//! Calls of the callers of a table, one at a time, each from a program that has the object: a call
//! is announced, its reply is handed in, and it is published. The steps of the table aren't counted.
#![tactic(auto)]

mod announcing;
mod publishing;

pub use announcing::announce_alone;
pub use publishing::{publish_alone, publish_reply};
