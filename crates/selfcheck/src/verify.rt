ghost use Rattle.std.specs.Prelude.{◌≤◌, length, IfOk, IfErr};
ghost use Rattle.book_text.specs.BookRules.{IsFirstBookFault};
ghost use Rattle.certificate_text.specs.Books.{IsBookVerdict};
ghost use Rattle.text_fields.specs.declared.version.Version.TheVariants.{Second};
ghost use Rattle.selfcheck.specs.Output.{IsOutputOf};
ghost use Rattle.selfcheck.specs.Refusal.{IsReadFault};

use crate::command::Command;
use crate::input::check_length;
use crate::output::Output;
use book_base::{NoMemory, ReadFault};
use byte_streams::{INPUT_LIMIT, Status};
use certificate_text::BookVerdict;
use std::alloc::Global;

/// The output of `verify` for the bytes read.
pub(crate) fn verify(alloc: Global, bytes: &[u8]) -> Result<Output, NoMemory>
    ensures { IfOk result
        (λ output. IsOutputOf Command.Verify bytes.now output.status output.text.items) }
{
    match verdict(alloc, bytes) {
        Ok(BookVerdict::Legal) => Output::new(alloc, Status::Fine, b"legal\n"),
        Ok(BookVerdict::Illegal) => Output::new(alloc, Status::Found, b"illegal\n"),
        Err(ReadFault::Text(fault)) => Output::refusal(alloc, fault),
        Err(ReadFault::NoMemory) => Err(NoMemory),
    }
}

/// The verdict on the book that an input is the text of.
fn verdict(alloc: Global, bytes: &[u8]) -> Result<BookVerdict, ReadFault>
    ensures short { IfOk result (λ _. length bytes.now ≤ INPUT_LIMIT) }
    ensures verdict { IfOk result (IsBookVerdict bytes.now) }
    ensures refused { IfErr result (IsReadFault (IsFirstBookFault Second) bytes.now) }
{
    check_length(bytes)?;
    certificate_text::verify(alloc, bytes)
}
