//! The search for a legal order of a book: `check` finds one, or says that the book has none.
#![tactic(auto)]

mod call_turns;
mod choice;
mod fresh;
mod guess;
mod guide;
mod impossible;
mod kept_order;
mod memo;
mod prefix;
mod remaining;
mod resume;
mod search;
mod takes;
mod twins;
mod verdict;
mod walk;

pub use book_base::Place;
pub use guide::Guide;
pub use kept_order::KeptOrder;
pub use memo::Memo;
pub use verdict::{Verdict, check, check_after, check_from, check_within};
pub use walk::load;
