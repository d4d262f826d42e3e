//! Tests of whole runs: over a meeting, an object that replies `done` to both of its two callers
//! only where their calls overlapped, and over the objects inside the world at their real sizes; of
//! two calls that check themselves; and of two monitors of one board beside a caller of a queue
//! that loses an item.
#![tactic(auto)]

mod two_calls;

pub use two_calls::{CallFindings, Calls, End, Turns, queue_calls};

#[cfg(test)]
mod inside_runs;
#[cfg(test)]
mod lossy_queue;
#[cfg(test)]
mod meetings;
#[cfg(test)]
mod table;
#[cfg(test)]
mod tests;
#[cfg(test)]
mod two_monitors;
#[cfg(test)]
mod watches;
