//! The sketch of a book: the history of invocations and returns that its views determine, and the
//! intervals of its calls there, from invocation to return, on a lane for each caller.
#![tactic(auto)]

mod drawn;
mod event;
mod history;
mod interval;
mod lanes;
pub mod laws;
mod place;

pub use drawn::announced;
pub use event::Event;
pub use history::sketch;
pub use interval::Interval;
pub use lanes::call_lanes;
