use book_base::OpWord;

/// One call in a log: its caller, and its operation.
#[derive(Clone, Copy, Debug, PartialEq, Eq)]
pub struct Entry {
    pub caller: u32,
    pub op: OpWord,
}
