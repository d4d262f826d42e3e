//! Locality: what the parts of a book by key say of the book (Herlihy and Wing 1990).
#![tactic(auto)]

pub mod laws;
