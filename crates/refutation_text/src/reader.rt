//! Whole texts of refutations.

ghost use Rattle.std.specs.Prelude.{IfOk, IfErr};
ghost use Rattle.text_fields.specs.Faults.{IsFaultOf};
ghost use Rattle.refutation_text.specs.Said.{steps_said, ending_said};
ghost use Rattle.refutation_text.specs.RefutationRules.{IsRefutationText, IsFirstRefutationFault};

use crate::body::{no_more, read_body, read_title};
use crate::refutation::Refutation;
use book_base::ReadFault;
use certificate_text::read_book_lines;
use std::alloc::Global;
use text_fields::Lines;

/// The refutation that the bytes are the text of. It need not be right.
///
/// A fault names the first wrong line, and the first test that this line fails. The lines of the
/// book are refused as in a book's text.
pub fn read_refutation(alloc: Global, bytes: &[u8]) -> Result<Refutation, ReadFault>
    // A refutation that was read is the one that the bytes are the text of.
    ensures found { IfOk result (λ read. IsRefutationText bytes.now read.kind read.book
        (steps_said read.steps.items) (ending_said read.ending)) }
    // An error is the first fault of the bytes as the text of a refutation, or want of memory.
    ensures refused { IfErr result (IsFaultOf (IsFirstRefutationFault bytes.now)) }
{
    let mut lines = Lines::new(bytes);
    let (kind, book) = read_book_lines(alloc, &mut lines)?;
    read_title(&mut lines)?;
    let (steps, ending) = read_body(alloc, &mut lines)?;
    no_more(&lines)?;
    Ok(Refutation {
        kind,
        book,
        steps,
        ending,
    })
}
