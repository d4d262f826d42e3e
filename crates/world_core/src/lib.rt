//! The world of the callers as plain data: its events, its runs, and the scan as a pure machine.
#![tactic(auto)]

mod course;
mod local;
mod program;
mod region;
mod scan_core;
mod want;

pub use local::Local;
pub use program::{InWorld, Outside, Program, Scrap};
pub use region::Region;
pub use scan_core::ScanCore;
pub use want::Want;
