ghost use Rattle.std.specs.Prelude.{◌≡◌, ◌<◌, ◌≤◌, length, IfOk, IfErr};
ghost use Rattle.book_base.specs.declared.fault.What.TheVariants.{Long};
ghost use Rattle.book_text.specs.BookRules.{IsFirstBookFault};
ghost use Rattle.text_fields.specs.declared.version.Version.TheVariants.{Second};
ghost use Rattle.certificate_text.specs.Books.{Tells};
ghost use Rattle.selfcheck.specs.Refusal.{IsReadFault};

use book_base::{Book, ReadFault, TextFault, What};
use book_text::read_book;
use byte_streams::INPUT_LIMIT;
use seq_objects::Kind;
use std::alloc::Global;

/// Refuses an input that is too long.
pub(crate) fn check_length(bytes: &[u8]) -> Result<(), TextFault>
    ensures short { IfOk result (λ _. length bytes.now ≤ INPUT_LIMIT) }
    ensures long { IfErr result (λ fault.
        (INPUT_LIMIT < length bytes.now) × (fault ≡ record { line = 0; what = Long })) }
{
    if bytes.len() > INPUT_LIMIT {
        return Err(TextFault {
            line: 0,
            what: What::Long,
        });
    }
    Ok(())
}

/// The book that an input is the text of, and the kind of its object.
pub(crate) fn read_input(alloc: Global, bytes: &[u8]) -> Result<(Kind, Book), ReadFault>
    ensures short { IfOk result (λ _. length bytes.now ≤ INPUT_LIMIT) }
    ensures book { IfOk result (λ read. Tells bytes.now read.0 read.1) }
    ensures refused { IfErr result (IsReadFault (IsFirstBookFault Second) bytes.now) }
{
    check_length(bytes)?;
    read_book(alloc, bytes)
}
