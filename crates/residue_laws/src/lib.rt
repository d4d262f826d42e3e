//! Laws of residues: what is to be remembered of a stream of calls so that each continuation can be
//! judged, whatever the sequential object.
#![tactic(auto)]

mod descriptions;
pub mod laws;

pub use descriptions::Descriptions;
