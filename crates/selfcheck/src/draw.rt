ghost use Rattle.std.specs.Prelude.{IfOk};
ghost use Rattle.selfcheck.specs.Output.{IsOutputOf};

use crate::command::Command;
use crate::input::read_input;
use crate::output::Output;
use book_base::{NoMemory, ReadFault};
use book_text::events_text;
use byte_streams::Status;
use sketch::sketch;
use std::alloc::Global;

/// The output of `sketch` for the bytes read.
pub(crate) fn draw(alloc: Global, bytes: &[u8]) -> Result<Output, NoMemory>
    ensures { IfOk result
        (λ output. IsOutputOf Command.Sketch bytes.now output.status output.text.items) }
{
    let (kind, book) = match read_input(alloc, bytes) {
        Ok(read) => read,
        Err(ReadFault::Text(fault)) => return Output::refusal(alloc, fault),
        Err(ReadFault::NoMemory) => return Err(NoMemory),
    };
    let events = sketch(alloc, &book)?;
    let text = events_text(alloc, kind, &book, &events)?;
    Ok(Output {
        status: Status::Fine,
        text,
    })
}
