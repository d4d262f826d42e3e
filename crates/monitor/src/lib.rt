//! Monitors: callers that make no calls, and judge in rounds what the others have published. The
//! first witness of an error stays on a board. Two of them judge beside a whole run of a script,
//! all that was published is judged once at the end, and what was found is written.
#![tactic(auto)]

mod answer_output;
mod beside;
mod board;
mod claim;
mod counts;
pub mod laws;
mod monitor;
mod published;
mod round;
mod run;
pub mod run_laws;
mod watch;
mod watching;
mod witness;
mod written_run;

pub use beside::{Left, watch_beside};
pub use board::Board;
pub use monitor::Monitor;
pub use published::judge_at;
pub use round::Round;
pub use run::{monitor_asked, monitor_over};
pub use watch::{Watch, Watched};
pub use witness::Witness;
pub use written_run::monitor_and_write;
