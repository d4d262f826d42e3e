/// The phase of a caller, as the caller keeps it while it runs.
#[derive(Clone, Copy, Debug, PartialEq, Eq)]
pub enum Phase {
    Announcing,
    Asking,
    Viewing,
    Publishing,
    Judging,
}
