//! What is wrong with the text of a stream.

ghost use Rattle.std.specs.Prelude.{◌≡◌, IfOk};
ghost use Rattle.stream_text.specs.declared.fault.StreamError.TheVariants as errors;
ghost use Rattle.stream_text.specs.Refusal.{wrong_name, stream_refusal_text};

use book_base::NoMemory;
use seq_objects::put_number;
use std::alloc::Global;
use thiserror::Error;

/// What is wrong with a line of a stream.
#[derive(Clone, Copy, Debug, PartialEq, Eq, Error)]
pub enum Wrong {
    #[error("the line is too long")]
    Long,
    #[error("the line has no end")]
    Cut,
    #[error("the title is wrong")]
    Head,
    #[error("no object is named")]
    Object,
    #[error("the line is no event")]
    Event,
    #[error("no process is named")]
    Process,
    #[error("there is no such operation")]
    Op,
    #[error("there is no such reply")]
    Reply,
    #[error("the process has a pending call")]
    Busy,
    #[error("the process has no pending call")]
    Idle,
    #[error("too many calls of the object are open")]
    Open,
    #[error("the text goes on after its end")]
    Rest,
}

impl Wrong {
    /// The name of what is wrong, as it is printed.
    #[tactic(auto, unfolding(crate::specs::Refusal::wrong_name))]
    pub fn name(self) -> &'static str
        ensures { result.now ≡ wrong_name self }
    {
        match self {
            Wrong::Long => "Long",
            Wrong::Cut => "Cut",
            Wrong::Head => "Head",
            Wrong::Object => "Object",
            Wrong::Event => "Event",
            Wrong::Process => "Process",
            Wrong::Op => "Op",
            Wrong::Reply => "Reply",
            Wrong::Busy => "Busy",
            Wrong::Idle => "Idle",
            Wrong::Open => "Open",
            Wrong::Rest => "Rest",
        }
    }
}

/// Why a line of a stream isn't taken.
#[derive(Clone, Copy, Debug, PartialEq, Eq, Error)]
pub enum StreamError {
    /// The line is wrong.
    #[error("{0}")]
    Wrong(Wrong),
    /// Memory was lacking.
    #[error("out of memory")]
    NoMemory,
}

impl From<Wrong> for StreamError {
    ghost from_gives = { λ wrong e. e ≡ errors.Wrong wrong };

    fn from(wrong: Wrong) -> StreamError {
        StreamError::Wrong(wrong)
    }
}

impl From<NoMemory> for StreamError {
    ghost from_gives = { λ _ e. e ≡ errors.NoMemory };

    fn from(_e: NoMemory) -> StreamError {
        StreamError::NoMemory
    }
}

/// A fault of the text of a stream: its line, counted from 1, and what is wrong there.
#[derive(Clone, Copy, Debug, PartialEq, Eq, Error)]
#[error("line {line}: {wrong}")]
pub struct StreamFault {
    pub line: u64,
    pub wrong: Wrong,
}

/// What is written of a stream with this fault: `refused`, the line and the name of the fault.
#[tactic(auto, unfolding(crate::specs::Refusal::stream_refusal_text))]
pub fn stream_refusal(alloc: Global, fault: StreamFault) -> Result<Vec<u8>, NoMemory>
    ensures { IfOk result (λ text. text.items ≡ stream_refusal_text fault) }
{
    let mut text = b"refused ".to_vec(alloc)?;
    put_number(&mut text, fault.line)?;
    text.extend_from_slice(b" ")?;
    text.extend_from_slice(fault.wrong.name().as_bytes())?;
    text.extend_from_slice(b"\n")?;
    Ok(text)
}
