//! Objects inside the world: calls that take effect one at a time linearize, and so do objects of
//! one word and the log, whose program and rules of tickets are here.
#![tactic(auto)]

pub mod laws;
pub mod log_laws;
