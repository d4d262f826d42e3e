use watch_core::Watch;

/// A copy of a watch, how many events of the log it has taken, and up to which event of the log it
/// knows replies: how many events were in the log then.
#[derive(Drop)]
pub struct Checkpoint {
    pub watch: Watch,
    pub taken: usize,
    pub seen: usize,
}
