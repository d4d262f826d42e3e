//! Evidence for either verdict on a book, as a text that anyone can check without a search: a
//! certificate where the book has a legal order, and a refutation where it has none. Refutations
//! are searched for, and judged before they are given out.
#![tactic(auto)]

mod counting;
mod evidence;
mod finding;
mod level_writer;
mod parts;
mod steps;
mod writer;

pub use evidence::{Evidence, Limit, Limits, evidence_for};
pub use writer::write_refutation;
