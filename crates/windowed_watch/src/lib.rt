//! A watch that holds events back, so that it knows most replies before their calls take effect,
//! and that names the first event with which a stream has no legal order.
#![tactic(auto)]

mod checkpoint;
mod lookahead;
mod steps;
#[cfg(test)]
mod tests;
mod windowed_watch;

pub use windowed_watch::WindowedWatch;
