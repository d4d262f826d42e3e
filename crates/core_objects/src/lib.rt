//! Objects inside the world: their steps are events on object words of the table, and every run of
//! them is linearizable.
#![tactic(auto)]

mod cell;
mod core_log;
mod core_object;
mod log_pass;
mod log_steps;
mod one_word_pass;
mod tally;

pub use cell::{CellProgram, CoreCell, CoreCellPass};
pub use core_log::{CoreLog, LogProgram, runs_of_log};
pub use core_object::{CoreObject, runs_of};
pub use log_pass::CorePass;
pub use one_word_pass::OneWordPass;
pub use tally::{CoreTally, CoreTallyPass, TallyProgram};
