ghost use Rattle.std.specs.Prelude.{◌++◌, ◌∷◌, [], List, IfOk, IfSome, OnOk};
ghost use Rattle.history_text.specs.declared.call.LogCall.{LogCall};
ghost use Rattle.log_books.specs.declared.options.Options.{Options as TheOptions};
ghost use Rattle.log_books.specs.Keys.{KeyAt};
ghost use Rattle.log_books.specs.Parts.{IsPart, AreParts, IsWritten, IsImported};

use crate::key_calls::earlier;
use crate::key_part::{KeyPart, key_part};
use crate::keys::key_places;
use crate::options::Options;
use crate::words::{options_of, words_of_lines};
use book_base::NoMemory;
use history_text::{Layout, LogError, LogFault, read_log};
use std::alloc::Global;

/// What is written of a log, and whether each of its keys has a book.
#[derive(Drop)]
pub struct Imported {
    pub text: Vec<u8>,
    pub has_books: bool,
}

// Appends the part of a further key.
fn put_part(imported: &mut Imported, part: &KeyPart) -> Result<(), NoMemory>
    ensures { OnOk result ((options : TheOptions) (log : List LogCall) (keys : List KeyAt) (at : KeyAt)
        → IsPart options log at part.now.has_book part.now.text.items
        → AreParts options log keys imported.old.has_books imported.old.text.items
        → AreParts options log (keys ++ at ∷ []) imported.new.has_books imported.new.text.items) }
{
    imported.text.extend_from_slice(&part.text)?;
    imported.has_books = imported.has_books && part.has_book;
    Ok(())
}

/// What is written of a log: for each key its name, the names of its values, the lines of its calls
/// and its book, or why it has none. The first fault of the log is answered.
#[tactic(auto, using(crate::proofs::Growing::no_parts))]
pub fn import<'a>(
    alloc: Global,
    options: &Options<'a>,
    bytes: &'a [u8],
) -> Result<Imported, LogError>
    // The text has a part for each key of the calls that the bytes say: the lines of the key, of its
    // values' names and of its calls, and the text of the book of its calls, or the line of a fault.
    ensures { IfOk result
        (λ imported. IsWritten options.now bytes.now imported.has_books imported.text.items) }
{
    let layout = Layout {
        named: &options.roles,
        keyed: options.keyed,
    };
    let log = read_log(alloc, options.format, &layout, options.clock, bytes)?;
    let mut imported = Imported {
        text: Vec::new(alloc),
        has_books: true,
    };
    let mut fault: Option<LogFault> = None;
    let keys = key_places(alloc, &log)?;
    for of_key in &keys {
        match key_part(alloc, &*options, &log, of_key) {
            Ok(part) => put_part(&mut imported, &part)?,
            Err(LogError::Fault(found)) => fault = Some(earlier(fault, found)),
            Err(LogError::NoMemory) => return Err(LogError::NoMemory),
        }
    }
    match fault {
        Some(fault) => Err(LogError::Fault(fault)),
        None => Ok(imported),
    }
}

/// What is written of a log that is read as some words say, each of which is a line; `None` where
/// the words aren't right. The first fault of the log is answered.
pub fn import_by<'a>(
    alloc: Global,
    lines: &'a [u8],
    bytes: &'a [u8],
) -> Result<Option<Imported>, LogError>
    // The text has a part for each key of the calls that the bytes say, as some options read them.
    ensures { IfOk result (λ found. IfSome found (λ imported. IsImported bytes.now imported.text.items)) }
{
    match options_of(alloc, &words_of_lines(alloc, lines)?)? {
        Some(options) => Ok(Some(import(alloc, &options, bytes)?)),
        None => Ok(None),
    }
}
