//! What a search for a legal order may be told of a book: an index, candidates and decisions, by a
//! trait above that of sequential objects; which calls may come next after a cut, and which is
//! forced.
#![tactic(auto)]

mod decision;
mod marked_callers;
mod next;
mod one_open;
mod plain;
mod search_hints;
mod sight;

pub use decision::Decision;
pub use marked_callers::MarkedCallers;
pub use next::{all_next, cut_of, first_view, least_open};
pub use one_open::has_one_open;
pub use search_hints::SearchHints;
pub use sight::{Labelled, Sight};
