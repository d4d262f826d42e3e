//! A watch of one object: it takes the events of a stream as they come, and says after each whether
//! the stream so far has a legal order.
#![tactic(auto)]

mod event;
mod key;
mod part;
mod parts;
mod pending;
#[cfg(test)]
mod tests;
mod verdict;
mod watch;

pub use event::Event;
pub use verdict::{Refused, Verdict};
pub use watch::Watch;

/// The greatest number of open calls of one object.
pub const MAX_OPEN: usize = 64;
