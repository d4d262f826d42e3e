//! Whole texts of models.

ghost use Rattle.std.specs.Prelude.{◌≡◌, ◌⊎◌, ℕ, [], List, IfOk, IfErr, MatchResult};
ghost use Rattle.book_base.specs.declared.fault.TextFault.{TextFault};
ghost use Rattle.book_base.specs.Book.{Page};
ghost use Rattle.book_text.specs.BookRules.{whole_text};
ghost use Rattle.model_text.specs.declared.told_line.ToldLine.{ToldLine};
ghost use Rattle.model_text.specs.ModelRules.{nothing_read, IsModelText, IsNoModelText, IsFirstModelFault};
ghost use Rattle.model_text.specs.Reading.{Stops, IsRest};
ghost use Rattle.model_text.specs.Told.{AllFollow};

use crate::book_lines::read_book_lines;
use crate::model_text::ModelText;
use crate::steps::{read_title, read_told};
use book_base::{ReadFault, TextFault, What};
use std::alloc::Global;
use text_fields::Lines;

/// The book and the told lines that the bytes are the text of.
///
/// A text fault names the first wrong line, and the first test that this line fails. The lines of
/// the book are refused as in a book's text.
pub fn read_model(alloc: Global, bytes: &[u8]) -> Result<ModelText, ReadFault>
    // What was read is the book and the told lines that the bytes are the text of.
    ensures found { IfOk result (λ read. IsModelText bytes.now read.book read.told.items) }
    // Each told line that was read may follow those before it.
    ensures follow { IfOk result (λ read. AllFollow [] read.told.items) }
    // A text of a book and told lines is read as these, unless memory runs out.
    ensures only { (pages : List Page) (told : List ToldLine) → IsModelText bytes.now pages told
        → MatchResult result (λ read. (read.book ≡ pages) × (read.told.items ≡ told))
        (λ e. e ≡ ReadFault.NoMemory) }
    // A fault of the text is the first fault of bytes that are no model's text.
    ensures refused { IfErr result (λ e. (e ≡ ReadFault.NoMemory)
        ⊎ ((fault : TextFault) × (e ≡ ReadFault.Text fault)
        × IsFirstModelFault bytes.now fault × IsNoModelText bytes.now)) }
    // Where the bytes have a first fault, the answer is that fault, unless memory runs out.
    ensures first { (fault : TextFault) → IsFirstModelFault bytes.now fault
        → MatchResult result (λ _. ⊥)
        (λ e. (e ≡ ReadFault.Text fault) ⊎ (e ≡ ReadFault.NoMemory)) }
{
    read_parts(alloc, bytes)
}

/// The book and the told lines that the bytes are the text of.
fn read_parts(alloc: Global, bytes: &[u8]) -> Result<ModelText, ReadFault>
    ensures found { IfOk result (λ read. IsModelText bytes.now read.book read.told.items) }
    ensures refused { IfErr result (Stops nothing_read (whole_text bytes.now)) }
{
    let mut lines = Lines::new(bytes);
    let book = read_book_lines(alloc, &mut lines)?;
    read_title(&mut lines)?;
    let told = read_told(alloc, &mut lines)?;
    no_more(&lines)?;
    Ok(ModelText { book, told })
}

/// Refuses bytes after the end.
fn no_more(lines: &Lines) -> Result<(), TextFault>
    ensures whole { IfOk result (λ _. lines.now.bytes ≡ []) }
    ensures refused { IfErr result (IsRest lines.now) }
{
    if lines.at_end() {
        Ok(())
    } else {
        Err(TextFault {
            line: lines.number(),
            what: What::Rest,
        })
    }
}
