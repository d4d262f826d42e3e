/// A move from one standing to the next.
#[derive(Clone, Copy, Debug, PartialEq, Eq)]
pub enum Move {
    /// The takes that find nothing and begin first after those that the standing covers.
    Finds,
    /// The next put of the first caller, and the next take of the second one.
    Callers(u64, u64),
}

/// An entry of a list of standings: the one to which a move leads from the standing of the list
/// with this number, where the one that covers no call has the number 0.
#[derive(Clone, Copy, Debug, PartialEq, Eq)]
pub struct PairEntry {
    pub item: u64,
    pub by: Move,
}
