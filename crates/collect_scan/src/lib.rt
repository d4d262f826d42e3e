//! The scan of a region by one caller of the table, with the cuts that rows embed. It takes no
//! memory and no lock, and of `n` callers at most `n * (n + 1) + n` steps.
#![tactic(auto)]

pub mod laws;
mod steps;
mod turns;
mod whole;

pub use turns::Scan;
pub use whole::scan;
