use book_base::NoMemory;
use std::alloc::{AllocError, AllocFailed};
use thiserror::Error;

/// What is wrong with a line of a log.
#[derive(Clone, Copy, Debug, PartialEq, Eq, Error)]
pub enum LogWhat {
    /// The line is no map of fields, or no row with as many cells as the header.
    #[error("the line is no map of fields, or no row of the header's columns")]
    Line,
    /// The log is empty where a header is due, or the header names a column twice.
    #[error("the header is missing, or names a column twice")]
    Header,
    /// The line has no field for the process.
    #[error("the line names no process")]
    Process,
    /// The line has no type, or one that is none of invoke, ok, fail and info.
    #[error("the line's type is none of invoke, ok, fail and info")]
    Type,
    /// The line names no operation, or an answer names another one than its invocation.
    #[error("the line names no operation, or another one than its invocation")]
    Operation,
    /// A moment is missing, is no number, or is before the invocation.
    #[error("a moment is missing, is no number, or lies before the invocation")]
    Time,
    /// A process invokes an operation while its last call is pending.
    #[error("the process has a call that is pending")]
    Pending,
    /// A process has an answer, and no pending call.
    #[error("the process has no call that is pending")]
    Unasked,
    /// The value isn't one that the operation takes.
    #[error("the value isn't one that the operation takes")]
    Value,
    /// The answer isn't one that the operation has.
    #[error("the answer isn't one that the operation has")]
    Reply,
    /// More calls are pending than a book may have callers.
    #[error("more calls are pending than a book may have callers")]
    TooMany,
    /// There are more calls than the callers of a book may have.
    #[error("there are more calls than a book may have")]
    Long,
}

/// A fault of a log: its line, counted from 1, and what is wrong there.
#[derive(Clone, Copy, Debug, PartialEq, Eq, Error)]
#[error("line {line}: {what}")]
pub struct LogFault {
    pub line: u64,
    pub what: LogWhat,
}

/// Why a log was not read.
#[derive(Clone, Copy, Debug, PartialEq, Eq, Error)]
pub enum LogError {
    /// The bytes are no log of the wanted form.
    #[error(transparent)]
    Fault(LogFault),
    /// Want of memory.
    #[error("out of memory")]
    NoMemory,
}

impl From<LogFault> for LogError {
    ghost use Rattle.std.specs.Prelude.{◌≡◌};
    ghost use Rattle.history_text.specs.declared.fault.LogError.{LogError};

    ghost from_gives = { λ fault e. e ≡ LogError.Fault fault };

    fn from(fault: LogFault) -> LogError {
        LogError::Fault(fault)
    }
}

impl From<NoMemory> for LogError {
    ghost use Rattle.std.specs.Prelude.{◌≡◌};
    ghost use Rattle.history_text.specs.declared.fault.LogError.{LogError};

    ghost from_gives = { λ _ e. e ≡ LogError.NoMemory };

    fn from(_e: NoMemory) -> LogError {
        LogError::NoMemory
    }
}

impl From<AllocError> for LogError {
    ghost use Rattle.std.specs.Prelude.{◌≡◌};
    ghost use Rattle.history_text.specs.declared.fault.LogError.{LogError};

    ghost from_gives = { λ _ e. e ≡ LogError.NoMemory };

    fn from(_e: AllocError) -> LogError {
        LogError::NoMemory
    }
}

impl<T: Drop> From<AllocFailed<T>> for LogError {
    ghost use Rattle.std.specs.Prelude.{◌≡◌};
    ghost use Rattle.history_text.specs.declared.fault.LogError.{LogError};

    ghost from_gives = { λ _ e. e ≡ LogError.NoMemory };

    fn from(_e: AllocFailed<T>) -> LogError {
        LogError::NoMemory
    }
}
