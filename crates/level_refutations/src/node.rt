use book_base::MAX_CALLERS;

/// A node of a table: the numbers of a level and of a cut after which the level is on top.
#[derive(Clone, Copy, Debug, PartialEq, Eq)]
pub struct Node {
    pub level: u64,
    pub cut: u64,
}

/// A node by the number of its level and the counts of its cut.
#[derive(Clone, Copy, Debug, PartialEq, Eq, Hash)]
pub struct NodeKey {
    pub level: u64,
    pub counts: [u16; MAX_CALLERS],
}
