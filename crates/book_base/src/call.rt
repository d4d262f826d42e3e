use crate::cut::Cut;

/// A call: its caller, and its number among that caller's calls, counted from 0.
#[derive(Clone, Copy, Debug, PartialEq, Eq, PartialOrd, Ord, Hash)]
pub struct Call {
    pub caller: u32,
    pub number: u64,
}

/// What a caller recorded of an answered call: the reply word, and the view, which counts for each
/// caller the calls that were announced when the view was taken (Castañeda and Rodríguez 2023).
#[derive(Clone, Copy, Debug)]
pub struct Record {
    pub reply: u64,
    pub view: Cut,
}

/// A place of an order: a call, and the reply that it gets there. In a legal order this is the
/// reply that the sequential object gives.
#[derive(Clone, Copy, Debug, PartialEq, Eq)]
pub struct Place {
    pub caller: u32,
    pub number: u64,
    pub reply: u64,
}
