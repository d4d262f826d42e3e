//! Clients: callers at work, phase by phase. Each asks its object, and its ending says how its
//! calls end, judged or not.
#![tactic(auto)]

mod asks;
mod client;
mod deferring;
mod ended;
mod ending;
mod finished;
mod judging;
pub mod laws;
mod outside_object;
mod shared;
mod sheet;
mod stand;

pub use asks::Asks;
pub use client::Client;
pub use deferring::Deferring;
pub use ended::Ended;
pub use ending::Ending;
pub use finished::Finished;
pub use judging::Judging;
pub use outside_object::OutsideObject;
pub use shared::Shared;
pub use sheet::Sheet;
pub use stand::CallerState;
