//! Decides a queue's book by pairs of its puts and takes, without a search of orders. An order that
//! pairs make is judged. The book has no legal order where a list has the standing that covers no
//! call, and each standing of the list leads to standings of the list alone; or where counts of
//! puts and takes contradict one another.
#![tactic(auto)]

mod clashes;
mod dead_ends;
mod decide;
pub mod laws;

pub use decide::decide_queue;
