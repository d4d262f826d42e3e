ghost use Rattle.std.specs.Prelude.{◌≡◌};
ghost use Rattle.watch_core.specs.declared.verdict.Refused.{Refused};

use book_base::NoMemory;
use thiserror::Error;

/// What is said of the events that a watch has taken.
#[derive(Clone, Copy, Debug, PartialEq, Eq)]
pub enum Verdict {
    /// All events, as many as the number says, have a legal order.
    Legal(u64),
    /// The first event with which there is no legal order is one of these: the events before the
    /// first number have a legal order, and those up to the last one have none. Both are the same
    /// where no reply was known before its event.
    Illegal(u64, u64),
    /// At the event of this number a limit was met. Those before it have a legal order, and nothing
    /// is said of the others.
    Unsure(u64),
}

/// Why an event was refused.
#[derive(Clone, Copy, Debug, PartialEq, Eq, Error)]
pub enum Refused {
    /// A process calls whose last call is pending.
    #[error("the process has a pending call")]
    Busy,
    /// A process returns or loses a call, and has no pending one.
    #[error("the process has no pending call")]
    Idle,
    /// A call comes where as many calls are open as may be.
    #[error("too many calls are open")]
    Open,
    /// As many events were taken as can be counted.
    #[error("too many events")]
    Full,
    /// Want of memory.
    #[error("out of memory")]
    NoMemory,
}

impl From<NoMemory> for Refused {
    ghost from_gives = { λ _ e. e ≡ Refused.NoMemory };

    fn from(_e: NoMemory) -> Refused {
        Refused::NoMemory
    }
}
