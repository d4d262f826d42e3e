//! The laws of the world: what holds in every run, for every program, whatever the callers do and
//! in whatever order; the books of reachable worlds; and which books have legal orders where a run
//! is linearizable.
#![tactic(auto)]

pub mod books;
pub mod cut_laws;
pub mod gathering;
pub mod laws;
pub mod linearizing;
pub mod local_laws;
pub mod own_entries;
pub mod projection;
pub mod rows;
pub mod verdicts;
pub mod views;
