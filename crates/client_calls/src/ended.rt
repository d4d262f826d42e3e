use enforcer::Seen;
use report_lines::LineEnd;
use row_table::Caller;
use world_core::Outside;

/// How a call has ended, with its caller.
pub enum Ended<P = Outside> {
    /// The line of the call has this end, and its caller is free for its next call.
    GoesOn(Caller<P>, LineEnd),
    /// The call is an error, and its caller is halted.
    Halts(Caller<P>, LineEnd),
    /// The call was left unjudged for want of memory: its caller is live, and the call, whose cut
    /// is seen, may be judged again.
    WantsMemory(Seen<P>),
}
