//! The late residue of a stream, as a set of descriptions, for any sequential object that grows by
//! one.
#![tactic(auto)]

mod closing;
mod late_residue;
mod laws;
mod next_set;
mod open_call;
mod overwriting;
mod reached;
mod widening;

pub use late_residue::LateResidue;
pub use laws::known_replies_decide;
pub use open_call::OpenCall;
pub use overwriting::Overwriting;
