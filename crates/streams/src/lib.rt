//! Streams of calls, returns and losses, without an end: their legal orders and their books.
#![tactic(auto)]

pub mod laws;
