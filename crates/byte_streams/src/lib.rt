//! Sources and sinks of bytes, the status that a program ends with, and programs that read one
//! input and write one output.
#![tactic(auto)]

mod failed;
mod memory_sink;
mod memory_source;
mod pieces;
mod program;
mod sink;
mod source;
mod status;
mod std_sink;
mod std_source;
mod steady_source;
mod transfer;

pub use failed::{Failed, ReadAllError};
pub use memory_sink::MemorySink;
pub use memory_source::MemorySource;
pub use program::{ProgramAnswer, TextProgram, run_program};
pub use sink::Sink;
pub use source::Source;
pub use status::Status;
pub use std_sink::StdSink;
pub use std_source::StdSource;
pub use steady_source::SteadySource;
pub use transfer::{read_all, write_all, write_text};

/// The greatest length of an input, in bytes.
pub const INPUT_LIMIT: usize = 1_048_576;
