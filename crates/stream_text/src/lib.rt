//! Streams as texts: their lines, each of which is a call, a return, a loss or the end, read one by
//! one from a source without a limit of its length.
#![tactic(auto)]

mod fault;
mod laws;
mod line;
mod line_source;
mod reader;

pub use fault::{StreamError, StreamFault, Wrong, stream_refusal};
pub use laws::lines_say_one_thing;
pub use line::{StreamLine, read_object, read_stream_line, read_title};
pub use line_source::{LineSource, NextLine};
pub use reader::{Phase, StreamReader, Taken};

/// The greatest number of bytes of a line, without its line feed.
pub const LINE_LIMIT: usize = 4096;
