//! Worked runs, calls and histories of the world, on which its definitions are seen to hold and to
//! fail, each by one condition alone; and the books of such runs.
#![tactic(auto)]

pub mod judged_runs;
pub mod parts;
pub mod schedules;
pub mod second_calls;
pub mod wrong_histories;
