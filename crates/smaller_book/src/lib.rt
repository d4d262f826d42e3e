//! From a book without a legal order a smaller book without one, and the laws by which the smaller
//! book shows that the first one has no legal order.
#![tactic(auto)]

mod composing;
mod cuts;
mod groups;
mod judging;
mod kept;
mod keyless;
mod keys;
pub mod laws;
mod numbered;
mod one_key;
mod open_cuts;
mod read_only;
mod read_only_calls;
mod removal;
mod shrinking;
mod thinning;
mod unseen_calls;

pub use composing::{numbers_of_all, numbers_through};
pub use cuts::{earliest, without_later, without_open};
pub use groups::without_unseen;
pub use judging::calls_of_all;
pub use keyless::without_halves;
pub use keys::{key_of, keys_of};
pub use numbered::{count_below, part};
pub use read_only::is_read_only;
pub use read_only_calls::without_singles;
pub use removal::{Smaller, all_numbers_but, push_if};
pub use shrinking::shrink;
pub use unseen_calls::first_seen;

/// A book has few calls where it has at most this many. Then it is tried at each earlier cut, also
/// at one at which a view holds several unanswered calls of one caller.
pub const FEW_CALLS: u64 = 24;
