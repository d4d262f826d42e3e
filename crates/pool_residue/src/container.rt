/// A container whose takes remove the first item of its list.
#[derive(Clone, Copy, Debug, PartialEq, Eq)]
pub enum Container {
    /// A queue: items stand in the order in which they were put in.
    Queue,
    /// A priority queue: items stand in the order of their values, the least one first.
    PriorityQueue,
}
