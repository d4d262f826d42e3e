//! The words that say how a log is read.

use crate::operation::Operation;
use crate::options::{NamedOperation, Options};
use book_base::NoMemory;
use history_text::{Clock, Format, NamedRole, Role};
use seq_objects::{Kind, number};
use std::alloc::Global;

// The two parts of a word `A=B`, at its last equals sign.
fn parts(word: &[u8]) -> Option<(&[u8], &[u8])> {
    let at = word.iter().rposition(|byte| *byte == b'=')?;
    match (word.get(..at), word.get(at + 1..)) {
        (Some(first), Some(second)) => Some((first, second)),
        _ => None,
    }
}

// The format with this name.
fn format_named(name: &[u8]) -> Option<Format> {
    match name {
        b"jepsen" => Some(Format::Edn),
        b"jsonl" => Some(Format::Json),
        b"csv" => Some(Format::Csv),
        _ => None,
    }
}

// How the initial value is written in a format where nothing else is said.
fn nothing(format: Format) -> &'static [u8] {
    match format {
        Format::Edn => b"nil",
        Format::Json => b"null",
        Format::Csv => b"",
    }
}

/// The words that say how a log is read: `--format F`, `--kind K`, and as many as one likes of
/// `--keyed`, `--error N`, `--initial V`, `--field ROLE=NAME` and `--op NAME=OPERATION`. `None` for
/// other words.
pub fn options_of<'a>(alloc: Global, words: &[&'a [u8]]) -> Result<Option<Options<'a>>, NoMemory> {
    let mut format: Option<Format> = None;
    let mut kind: Option<Kind> = None;
    let mut clock = Clock::Lines;
    let mut keyed = false;
    let mut initial: Option<&'a [u8]> = None;
    let mut roles = Vec::new(alloc);
    let mut named: Vec<(&'a [u8], &'a [u8])> = Vec::new(alloc);
    let mut option: Option<&'a [u8]> = None;
    for word in words {
        match option {
            None => {
                if *word == b"--keyed".as_slice() {
                    keyed = true;
                } else {
                    option = Some(*word);
                }
            }
            Some(before) => {
                option = None;
                match before {
                    b"--format" => format = format_named(*word),
                    b"--kind" => kind = Kind::from_name(*word),
                    b"--initial" => initial = Some(*word),
                    b"--error" => match number(*word) {
                        Some(error) => clock = Clock::Times(error),
                        None => return Ok(None),
                    },
                    b"--field" => match parts(*word) {
                        Some((role, name)) => match Role::from_name(role) {
                            Some(role) => roles.push(NamedRole { role, name })?,
                            None => return Ok(None),
                        },
                        None => return Ok(None),
                    },
                    b"--op" => match parts(*word) {
                        Some(pair) => named.push(pair)?,
                        None => return Ok(None),
                    },
                    _ => return Ok(None),
                }
            }
        }
    }
    let (Some(format), Some(kind), None) = (format, kind, option) else {
        return Ok(None);
    };
    let mut operations = Vec::new(alloc);
    for (name, operation) in &named {
        match Operation::named(kind, *operation) {
            Some(operation) => operations.push(NamedOperation {
                name: *name,
                operation,
            })?,
            None => return Ok(None),
        }
    }
    Ok(Some(Options {
        format,
        kind,
        clock,
        keyed,
        initial: initial.unwrap_or(nothing(format)),
        roles,
        operations,
    }))
}

/// The words of some lines, each of which is a word with a line feed after it.
pub fn words_of_lines(alloc: Global, lines: &[u8]) -> Result<Vec<&[u8]>, NoMemory> {
    let mut words = Vec::new(alloc);
    let mut rest = lines;
    for _ in 0..u64::MAX {
        let Some(end) = rest.iter().position(|byte| *byte == b'\n') else {
            break;
        };
        words.push(&rest[..end])?;
        rest = &rest[end + 1..];
    }
    Ok(words)
}
