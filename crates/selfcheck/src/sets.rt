ghost use Rattle.std.specs.Prelude.{◌≤◌, length, IfOk, IfErr};
ghost use Rattle.set_order.specs.SetBookRules.{IsFirstSetBookFault, IsSetBookText};
ghost use Rattle.byte_streams.specs.declared.TheConstants.{INPUT_LIMIT};
ghost use Rattle.selfcheck.specs.Output.{IsOutputOf};
ghost use Rattle.selfcheck.specs.Refusal.{IsReadFault};

use crate::command::Command;
use crate::input::check_length;
use crate::output::Output;
use book_base::{Book, NoMemory, ReadFault};
use byte_streams::Status;
use set_order::{Joins, SetVerdict, check_sets, read_setbook};
use std::alloc::Global;

/// The output of `sets` for the bytes read.
#[tactic(auto, unfolding(crate::specs::SetInput::IsLegalSetInput, crate::specs::SetInput::IsIllegalSetInput))]
pub(crate) fn sets(alloc: Global, bytes: &[u8]) -> Result<Output, NoMemory>
    ensures { IfOk result
        (λ output. IsOutputOf Command.Sets bytes.now output.status output.text.items) }
{
    let book = match read_sets(alloc, bytes) {
        Ok(book) => book,
        Err(ReadFault::Text(fault)) => return Output::refusal(alloc, fault),
        Err(ReadFault::NoMemory) => return Err(NoMemory),
    };
    match check_sets(alloc, &Joins, &book)? {
        SetVerdict::Legal(_) => Output::new(alloc, Status::Fine, b"legal\n"),
        SetVerdict::Illegal => Output::new(alloc, Status::Found, b"illegal\n"),
    }
}

/// The set book that an input is the text of.
fn read_sets(alloc: Global, bytes: &[u8]) -> Result<Book, ReadFault>
    ensures short { IfOk result (λ _. length bytes.now ≤ INPUT_LIMIT) }
    ensures book { IfOk result (λ book. IsSetBookText bytes.now book) }
    ensures refused { IfErr result (IsReadFault IsFirstSetBookFault bytes.now) }
{
    check_length(bytes)?;
    read_setbook(alloc, bytes)
}
