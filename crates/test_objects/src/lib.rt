//! Objects to run: lawful ones, a log that a machine answers from, a tally and a cell; and faulty
//! ones, among them machines over the log that lose, repeat, delay or invent. Each has a name.
#![tactic(auto)]

mod behaviour;
mod calls;
pub mod faulty_laws;
mod invent;
mod late;
pub mod laws;
mod log_box;
mod log_pass;
mod lossy;
mod machine;
pub mod machine_laws;
mod meeting;
mod one_pass;
mod plain;
mod scratch;
mod split_tally;
mod tally;
mod twice;
mod word_cell;
mod word_object;

pub use behaviour::Behaviour;
pub use invent::Invent;
pub use late::Late;
pub use log_box::LogBox;
pub use log_pass::LogPass;
pub use lossy::Lossy;
pub use machine::Machine;
pub use meeting::{Flags, Meeting};
pub use one_pass::{OnePass, QueueDeeds};
pub use plain::Plain;
pub use scratch::Scratch;
pub use shared_words::Entry;
pub use split_tally::{SplitTally, TornIncrements};
pub use tally::{Increments, Tally};
pub use twice::Twice;
pub use word_cell::{LoadsAndStores, WordCell};
pub use word_object::{WordCalls, WordObject};
