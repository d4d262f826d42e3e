//! What one writes an object of one's own with, and hunts over it: runs of random scripts, with
//! noise, until one of them shows a book without a legal order, or as many runs are made as wanted;
//! and the program that writes what was caught.
#![tactic(auto)]

mod asked;
mod caught;
mod counting_pass;
mod hunting;
mod listed;
mod listing_pass;
mod maker;
mod noise;
mod noisy;
mod noisy_cell;
mod noisy_lock;
mod once;
mod onlooker;
mod program;
mod replies;
mod runs;
mod setting;
mod short_wait;
mod shown;
mod trial;
mod underway;
mod watchdog;
mod watched;

pub use asked::Asked;
pub use counting_pass::CountingPass;
pub use hunting::{hunt_and_write, hunt_by_words};
pub use listed::Listed;
pub use listing_pass::ListingPass;
pub use maker::Maker;
pub use noise::{Loudness, Noise};
pub use noisy::Noisy;
pub use noisy_cell::NoisyCell;
pub use noisy_lock::NoisyLock;
pub use onlooker::{Onlooker, Unwatched};
pub use program::run_hunt;
pub use replies::value_reply;
pub use runs::{Hunted, Settings, hunt};
pub use setting::Setting;
pub use short_wait::lock_or_give_up;
pub use shown::Shown;
pub use trial::Catch;
