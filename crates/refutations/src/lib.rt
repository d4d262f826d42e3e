//! Reasons why a book has no legal order, which can be checked without a search: closed lists of
//! items, replies that the object gives at no list, and counts of a container's puts and takes.
#![tactic(auto)]

mod closed;
mod counts;
mod entry;
mod fault;
mod find;
mod impossible;
mod items;
pub mod laws;
mod stored_item;

pub use closed::check_closed;
pub use counts::{find_misses_puts, holds_values, takes_exceed_puts};
pub use entry::Entry;
pub use fault::ClosedFault;
pub use find::find_closed;
pub use impossible::{first_impossible, has_impossible_reply};
