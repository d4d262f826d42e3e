ghost use Rattle.std.specs.Prelude.{◌≡◌};
ghost use Rattle.book_base.specs.declared.fault.BookFault.{BookFault};
ghost use Rattle.book_base.specs.declared.fault.ReadFault.{ReadFault};

use crate::call::Call;
use std::alloc::{AllocError, AllocFailed};
use thiserror::Error;

/// Want of memory.
#[derive(Clone, Copy, Debug, PartialEq, Eq, Error)]
#[error("out of memory")]
pub struct NoMemory;

impl From<AllocError> for NoMemory {
    fn from(_e: AllocError) -> NoMemory {
        NoMemory
    }
}

impl<T: Drop> From<AllocFailed<T>> for NoMemory {
    fn from(_e: AllocFailed<T>) -> NoMemory {
        NoMemory
    }
}

/// Why a book refused a call or an answer.
#[derive(Clone, Copy, Debug, PartialEq, Eq, Error)]
pub enum BookFault {
    /// The caller has as many calls as a caller may have.
    #[error("the caller has as many calls as it may have")]
    TooManyCalls,
    /// The caller has no unanswered call.
    #[error("the caller has no unanswered call")]
    NoSuchCall,
    /// The view counts more calls of this caller than it made: the least such caller.
    #[error("the view counts more calls of caller {0} than it made")]
    ViewOutside(u32),
    /// The view's count for the answering caller, which is below the answered call's number plus 1.
    #[error("the view counts {0} of its caller's calls, and lacks its own")]
    ViewLacksOwn(u64),
    /// The view's count for the answering caller, which is above the answered call's number plus 1.
    #[error("the view counts {0} of its caller's calls, and has later ones")]
    ViewHasLater(u64),
    /// Neither the answer's view nor that of this call is within the other: the least such call.
    #[error("neither the view nor that of call {number} of caller {caller} is within the other", number = .0.number, caller = .0.caller)]
    ViewsCross(Call),
    /// Want of memory.
    #[error("out of memory")]
    NoMemory,
}

/// What is wrong with a text.
#[derive(Clone, Copy, Debug, PartialEq, Eq, Error)]
pub enum What {
    #[error("the text is too long")]
    Long,
    #[error("the line has no end")]
    Cut,
    #[error("the title is wrong")]
    Head,
    #[error("no object is named")]
    Object,
    #[error("the number of callers is wrong")]
    Callers,
    #[error("the numbers of calls are wrong")]
    Calls,
    #[error("the line isn't that of the call that is due")]
    Place,
    #[error("there is no such operation")]
    Op,
    #[error("an earlier call of the caller is unanswered")]
    Gap,
    #[error("there is no such reply")]
    Reply,
    #[error("the view isn't written right")]
    View,
    #[error("the view counts more calls of a caller than it made")]
    ViewOutside,
    #[error("the view lacks its own call")]
    ViewLacksOwn,
    #[error("the view has later calls of its caller")]
    ViewHasLater,
    #[error("the view and an earlier one cross")]
    ViewsCross,
    #[error("what follows the view isn't written right")]
    Mark,
    #[error("the seen cut is wrong")]
    Seen,
    #[error("the caller has a further line after one that is not ok")]
    Last,
    #[error("the stop is wrong")]
    Stop,
    #[error("the turns are wrong")]
    Turns,
    #[error("the line isn't the end that is due")]
    End,
    #[error("the text goes on after its end")]
    Rest,
}

/// A fault of a text: its line, counted from 1, and what is wrong there.
#[derive(Clone, Copy, Debug, PartialEq, Eq, Error)]
#[error("line {line}: {what}")]
pub struct TextFault {
    pub line: u64,
    pub what: What,
}

/// Why a text was not read.
#[derive(Clone, Copy, Debug, PartialEq, Eq, Error)]
pub enum ReadFault {
    /// The bytes are no text of the wanted form.
    #[error(transparent)]
    Text(TextFault),
    /// Want of memory.
    #[error("out of memory")]
    NoMemory,
}

impl From<TextFault> for ReadFault {
    ghost from_gives = { λ fault e. e ≡ ReadFault.Text fault };

    fn from(fault: TextFault) -> ReadFault {
        ReadFault::Text(fault)
    }
}

impl From<NoMemory> for ReadFault {
    ghost from_gives = { λ _ e. e ≡ ReadFault.NoMemory };

    fn from(_e: NoMemory) -> ReadFault {
        ReadFault::NoMemory
    }
}

impl From<AllocError> for ReadFault {
    ghost from_gives = { λ _ e. e ≡ ReadFault.NoMemory };

    fn from(_e: AllocError) -> ReadFault {
        ReadFault::NoMemory
    }
}

impl<T: Drop> From<AllocFailed<T>> for ReadFault {
    ghost from_gives = { λ _ e. e ≡ ReadFault.NoMemory };

    fn from(_e: AllocFailed<T>) -> ReadFault {
        ReadFault::NoMemory
    }
}

impl<T: Drop> From<AllocFailed<T>> for BookFault {
    ghost from_gives = { λ _ e. e ≡ BookFault.NoMemory };

    fn from(_e: AllocFailed<T>) -> BookFault {
        BookFault::NoMemory
    }
}
