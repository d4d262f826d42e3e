//! The table of rows, on atomic words: each step of a caller is one event of the world, for every
//! program; and whole rows, staged word by word and then counted.
#![tactic(auto)]

mod action;
mod announcement;
mod bench;
mod caller;
mod held;
pub mod laws;
mod layout;
mod notes;
mod object_steps;
mod phase;
mod plays;
mod publication;
mod row_steps;
mod rows;
mod staged_words;
mod stance;
mod steps;
mod world;

pub use announcement::announce_row;
pub use bench::Bench;
pub use caller::Caller;
pub use held::{Held, Holding, Leaves, Part, Returns};
pub use publication::publish_row;
pub use rows::Rows;
pub use steps::Steps;
pub use world::World;
