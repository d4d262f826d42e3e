/// How a case is tried.
#[derive(Clone, Copy, Debug, PartialEq, Eq)]
pub enum Trial {
    /// The case as it is, once.
    Once,
    /// The case with each prefix of its input, but not the whole input, in place of the input.
    Prefixes,
    /// Bytes come one at a time, and each read fails in turn.
    Reads,
    /// Bytes go one at a time, and each write fails in turn.
    Writes,
    /// The case as it is, where the schedule decides the output.
    AnySchedule(Told),
}

/// What an output is to show, whatever the schedule.
#[derive(Clone, Copy, Debug, PartialEq, Eq)]
pub enum Told {
    /// The output is a report of this number of calls, all of them delivered.
    Delivered(u64),
    /// The output is a report of this number of calls, all of them delivered, and some call
    /// overlaps calls of another caller.
    Overlapping(u64),
    /// The output is a certificate of a legal order.
    Certified,
}

/// What the top call is given in one attempt, and what it is to answer.
#[derive(Clone, Copy)]
pub struct Attempt<'a> {
    pub input: &'a [u8],
    pub source_fails: &'a [u64],
    pub source_most: usize,
    pub sink_fails: &'a [u64],
    pub sink_most: usize,
    pub wanted: &'a [u8],
    pub status: u8,
}
