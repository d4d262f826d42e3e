//! The header of a log, which names the columns of a CSV.

ghost use Rattle.std.specs.Prelude.{◌≡◌, ◌+◌, ◌<◌, ◌^◌, ℕ, List, [], ◌∷◌, Ok, Err, map, length, IfOk, IfErr, OnOk, IfSome, IfNone, IsErr, bytes_eq};
ghost use Rattle.std.specs.List.{list_any};
ghost use Rattle.history_text.specs.declared.format.Format.{Format};
ghost use Rattle.history_text.specs.Words.{plain_of};
ghost use Rattle.history_text.specs.Lines.{Line, lines_from};
ghost use Rattle.history_text.specs.Log.{are_apart, AreColumns, HasHeader, IsHeaderCause};

use crate::cell::cells;
use crate::fault::{LogError, LogFault, LogWhat};
use crate::format::Format;
use crate::item::plain;
use crate::lines::LogLines;
use book_base::NoMemory;
use std::alloc::Global;

// Whether a plain word is one of these names, as plain words.
fn is_among(word: &[u8], names: &[&[u8]]) -> bool
    ensures { result
        ≡ list_any (bytes_eq word.now) (map plain_of (map (λ name. name.now) names.now)) }
{
    for name in names {
        if word == plain(*name) {
            return true;
        }
    }
    false
}

// Whether no two of these names are the same, as plain words.
fn apart(names: &[&[u8]]) -> bool
    ensures { result ≡ are_apart (map plain_of (map (λ name. name.now) names.now)) }
{
    for at in 0..names.len() {
        if is_among(plain(names[at]), &names[at + 1..names.len()]) {
            return false;
        }
    }
    true
}

// The names of the columns that a line names, where it is a header.
fn columns<'a>(alloc: Global, line: &'a [u8]) -> Result<Option<Vec<&'a [u8]>>, NoMemory>
    ensures some { IfOk result (λ found. IfSome found (λ names.
        AreColumns line.now (map (λ name. name.now) names.items))) }
    ensures none { IfOk result (λ found. IfNone found
        ((names : List (List ℕ)) → AreColumns line.now names → ⊥)) }
{
    match cells(alloc, line)? {
        Some(names) if apart(&names) => Ok(Some(names)),
        _ => Ok(None),
    }
}

// The names of the columns, from the first line of a CSV.
fn columns_first<'a>(alloc: Global, lines: &mut LogLines<'a>) -> Result<Vec<&'a [u8]>, LogError>
    requires { lines.old.number + length lines.old.rest.now < 2 ^ 64 }
    ensures fits { OnOk result (lines.new.number + length lines.new.rest.now < 2 ^ 64) }
    ensures names { IfOk result (λ names.
        HasHeader Format.Csv (lines_from (lines.old.number + 1) [] lines.old.rest.now)
        (map (λ name. name.now) names.items)
        (lines_from (lines.new.number + 1) [] lines.new.rest.now)) }
    ensures cause { IfErr result
        (IsHeaderCause (lines_from (lines.old.number + 1) [] lines.old.rest.now)) }
{
    let what = LogWhat::Header;
    let Some((line, text)) = lines.next() else {
        return Err(LogError::Fault(LogFault { line: 1, what }));
    };
    match columns(alloc, text)? {
        Some(names) => Ok(names),
        None => Err(LogError::Fault(LogFault { line, what })),
    }
}

/// The names of the columns, from the first line of a CSV; none in other formats.
pub fn header<'a>(
    alloc: Global,
    format: Format,
    lines: &mut LogLines<'a>,
) -> Result<Vec<&'a [u8]>, LogError>
    requires { lines.old.number + length lines.old.rest.now < 2 ^ 64 }
    ensures fits { OnOk result (lines.new.number + length lines.new.rest.now < 2 ^ 64) }
    ensures names { IfOk result (λ names.
        HasHeader format (lines_from (lines.old.number + 1) [] lines.old.rest.now)
        (map (λ name. name.now) names.items)
        (lines_from (lines.new.number + 1) [] lines.new.rest.now)) }
    ensures csv { IsErr result → format ≡ Format.Csv }
    ensures cause { IfErr result
        (IsHeaderCause (lines_from (lines.old.number + 1) [] lines.old.rest.now)) }
{
    match format {
        Format::Csv => columns_first(alloc, lines),
        _ => Ok(Vec::new(alloc)),
    }
}
