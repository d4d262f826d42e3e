use std::fmt;
use std::fmt::{Display, Formatter, Write};

/// The outcome of a piece of work.
#[derive(Clone, Copy, Debug, PartialEq, Eq)]
pub enum Came {
    /// The work wasn't done.
    Nothing,
    /// The work has the answer that it has with ample memory.
    Ordinary,
    /// Memory was lacking: nothing was written, and the bench holds all callers. Where the passes
    /// are seen, no call was made.
    NoMemory,
    /// A call was made, and not judged for want of memory: its reply, its view and its seen cut are
    /// answered, and its caller is halted.
    Unjudged,
    /// The work has any other outcome.
    Wrong,
}

impl Display for Came {
    fn fmt<W: Write>(&self, f: &mut Formatter<W>) -> fmt::Result {
        f.write_str(match self {
            Came::Nothing => "not done",
            Came::Ordinary => "the ordinary answer",
            Came::NoMemory => "want of memory",
            Came::Unjudged => "a call without a judgement",
            Came::Wrong => "WRONG",
        })
    }
}
