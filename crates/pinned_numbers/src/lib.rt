//! The numbers that clauses cite by their names, each written out. No other law depends on these
//! laws.
#![tactic(auto)]

pub mod laws;
