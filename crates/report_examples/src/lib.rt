//! Worked lines and reports of runs that are written out: which of them are lawful, and which are
//! refused.
#![tactic(auto)]

pub mod lines;
pub mod refused_reports;
pub mod reported_runs;
pub mod returns;
pub mod stops;
pub mod witnesses;
