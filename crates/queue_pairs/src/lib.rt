//! Pairs of a queue's book: the k-th put and the k-th take are looked for together, as pairs that
//! may take effect one after another, without the object's list and without an order of all calls.
//! Books of containers are refuted by counts of puts and takes, whichever of its values a container
//! gives out.
#![tactic(auto)]

pub mod count_laws;
mod counts;
pub mod laws;
mod next_entries;
mod order;
mod refute;
mod search;
mod spans;
mod standing;
mod surplus;
mod table;
mod walk;

use book_base::{MAX_CALLERS, MAX_CALLS};
pub use counts::{puts_are_ahead, takes_are_ahead};
pub use next_entries::{NextEntries, TimedPair};
pub use order::{calls_in_order, places_of};
pub use refute::refute_by_counts;
pub use search::{PairSearch, PairsFound};
pub use spans::Span;
pub use standing::PairState;
pub use surplus::Surplus;
pub use table::{QueueDeal, Table, TimedCall};
pub use walk::{PairFrame, PairStep, PairWalk, StepChoice};

/// A moment later than all others, which no call has: a view counts at most the calls of all
/// callers.
pub const NEVER: u64 = MAX_CALLERS as u64 * MAX_CALLS + 1;
