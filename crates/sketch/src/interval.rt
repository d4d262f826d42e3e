use book_base::Call;

/// A call with the places that it takes in a history: its invocation stands at `begin`, and its
/// return is the last event before `end`.
///
/// An unanswered call is open: it has no return. Its places end where the next call of its caller
/// is invoked, or after the last event where there is none, so that no two calls of a caller share
/// a place.
#[derive(Clone, Copy, Debug, PartialEq, Eq)]
pub struct Interval {
    pub call: Call,
    pub begin: usize,
    pub end: usize,
    pub is_open: bool,
}
