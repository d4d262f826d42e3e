//! What a run of all callers found: a report of their lines, the books of the report, and what a
//! lawful report says of its delivered lines and of its error lines.
#![tactic(auto)]

mod book;
pub mod cases;
mod counts;
pub mod lawful_laws;
pub mod laws;
mod report;
mod witness;

pub use book::book_of;
pub use counts::Counts;
pub use report::{Own, Report};
