use crate::table::Transition;
use thiserror::Error;

/// Why a table refused a step.
#[derive(Clone, Copy, Debug, PartialEq, Eq, Error)]
pub enum TellFault {
    /// At this state this operation was told to make this other transition.
    #[error("the operation was told to lead to state {next} with reply {reply}", next = .0.next, reply = .0.reply)]
    Contradicts(Transition),
    /// It is promised that this operation changes no state at which it has this reply.
    #[error("the operation was promised to change no state at which it has this reply")]
    LeavesNot,
    /// Want of memory.
    #[error("out of memory")]
    NoMemory,
}

/// Why a table refused a promise.
#[derive(Clone, Copy, Debug, PartialEq, Eq, Error)]
pub enum PromiseFault {
    /// At this state the operation was told to have the reply and to lead to another state.
    #[error("the operation was told to change state {0} with this reply")]
    LeavesNot(u64),
    /// Want of memory.
    #[error("out of memory")]
    NoMemory,
}
