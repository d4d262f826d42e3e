//! Legal prefixes of a book: what an order of its calls may begin with. For a book without a legal
//! order the longest ones are found, with the calls that may come next after each and the replies that
//! the object gives them there.
#![tactic(auto)]

mod blocked;
pub mod laws;
mod layer;
mod next_calls;
mod prefix;
mod search;
mod text;

pub use blocked::{Blocked, blocked_after};
pub use prefix::LegalPrefix;
pub use search::{LongestPrefixes, longest_prefixes};
pub use text::prefixes_text;

/// The capacity of the state with which prefixes are made longer, in words: a list has at most one
/// word at first, and each of at most as many calls as a book has adds at most one.
const LIST_ROOM: u64 = 4098;
