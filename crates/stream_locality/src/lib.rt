//! Locality of streams: what the parts of a stream by key say of the stream (Herlihy and Wing 1990).
#![tactic(auto)]

pub mod laws;
