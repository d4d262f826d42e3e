use book_base::{Cut, OpWord, Record};

/// How the line of a call ends. The cut is the seen cut: what its caller saw published after its
/// own record was published.
#[derive(Clone, Copy, Debug)]
pub enum LineEnd {
    /// The call was announced, and its caller stopped before it had the view.
    Pending,
    /// The call has its record, and its caller stopped before it judged.
    Unchecked(Record),
    /// The reply was delivered: the book at the seen cut has a legal order.
    Delivered(Record, Cut),
    /// The call is an error: the book at the seen cut has no legal order.
    Error(Record, Cut),
}

/// A line of a report: one call of a caller, with its operation word.
#[derive(Clone, Copy, Debug)]
pub struct Line {
    pub op: OpWord,
    pub end: LineEnd,
}
