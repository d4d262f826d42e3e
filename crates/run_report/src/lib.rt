//! Whole runs: the callers of a script are taken off their bench into clients, make their phases,
//! and are brought back; their report is lawful.
#![tactic(auto)]

mod asked;
mod end;
mod pace;
mod passes;
mod replay;
mod report;
mod run;
mod settling;
mod start;
mod turns;
mod worker;

pub use asked::run_asked;
pub use end::end_all;
pub use pace::Pace;
pub use passes::passes_are_fresh;
pub use replay::replay_over;
pub use run::run_over;
pub use settling::settle_all;
pub use start::{allotment_of, start_all};
pub use turns::take_turns;
pub use worker::{Worker, run_workers};
