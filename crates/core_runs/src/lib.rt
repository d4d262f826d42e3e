//! Whole runs of a script over an object inside the world: no line of their report is an error. The
//! calls of a run are all answered from one log, or each has a reply of the form that its operation
//! has.
#![tactic(auto)]

pub mod call_laws;
mod inside_object;
pub mod laws;
mod run;

pub use inside_object::InsideObject;
pub use run::run_core;
