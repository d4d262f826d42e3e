//! The lines after a book: the title of the refutation, its steps, its ending, and the end.

ghost use Rattle.std.specs.Prelude.{◌≡◌, [], IfOk, IfErr};
ghost use Rattle.level_refutations.specs.Said.{entries_said};
ghost use Rattle.refutation_text.specs.Said.{steps_said, ending_said};
ghost use Rattle.refutation_text.specs.Reading.{IsTitle, IsNoTitle, AreSteps, AreEntries, AreNoEntries, ArePairs, AreNoPairs, AreLevels, AreNoLevels, IsEnd, IsNoEnd, IsRestOf, IsNoRestOf, IsBody, IsNoBody, IsRest};

use crate::fields::{entry_of, pair_entry_of};
use crate::level_lines::level_entry_of;
use crate::line::{opening_of, step_of};
use crate::refutation::{Ending, Step};
use book_base::{ReadFault, TextFault, What};
use certificate_text::is_end;
use level_refutations::LevelEntry;
use pair_refutations::PairEntry;
use refutations::Entry;
use std::alloc::Global;
use text_fields::{Lines, Words, are_words};

/// Reads the title of the refutation, which is the line after a book.
pub(crate) fn read_title(lines: &mut Lines) -> Result<(), TextFault>
    ensures found { IfOk result (λ _. IsTitle lines.old lines.new) }
    ensures refused { IfErr result (IsNoTitle lines.old) }
{
    let line = lines.number();
    let mut words = Words::new(lines.line()?);
    if are_words(&mut words, b"refutation", b"2") {
        Ok(())
    } else {
        Err(TextFault {
            line,
            what: What::Head,
        })
    }
}

/// The steps and the ending that the lines after the title give, up to the end.
pub(crate) fn read_body(alloc: Global, lines: &mut Lines) -> Result<(Vec<Step>, Ending), ReadFault>
    ensures found { IfOk result (λ (steps, ending).
        IsBody lines.old (steps_said steps.items) (ending_said ending) lines.new) }
    ensures refused { IfErr result (IsNoBody lines.old) }
{
    let (steps, begun) = read_steps(alloc, lines)?;
    let ending = read_ending(alloc, lines, begun)?;
    Ok((steps, ending))
}

/// The ending that the lines give after the one that begins it.
fn read_ending(alloc: Global, lines: &mut Lines, begun: Ending) -> Result<Ending, ReadFault>
    ensures found { IfOk result (λ ending.
        IsRestOf (ending_said begun) lines.old (ending_said ending) lines.new) }
    ensures refused { IfErr result (IsNoRestOf (ending_said begun) lines.old) }
{
    match begun {
        Ending::Closed(entries) => Ok(Ending::Closed(read_entries(lines, entries)?)),
        Ending::Pairs(entries) => Ok(Ending::Pairs(read_pairs(lines, entries)?)),
        Ending::Levels(entries) => Ok(Ending::Levels(read_levels(alloc, lines, entries)?)),
        whole => {
            read_end(lines)?;
            Ok(whole)
        }
    }
}

/// The steps that the lines give, and the ending that the line after them begins.
fn read_steps(alloc: Global, lines: &mut Lines) -> Result<(Vec<Step>, Ending), ReadFault>
    ensures found { IfOk result (λ (steps, begun).
        AreSteps lines.old (steps_said steps.items) (ending_said begun) lines.new) }
    ensures refused { IfErr result (IsNoBody lines.old) }
{
    let mut steps = Vec::new(alloc);
    loop {
        let number = lines.number();
        let line = lines.line()?;
        match step_of(alloc, line)? {
            Some(step) => steps.push(step)?,
            None => {
                let opening = opening_of(alloc, line)?;
                match opening {
                    Some(begun) => return Ok((steps, begun)),
                    None => {
                        return Err(ReadFault::Text(TextFault {
                            line: number,
                            what: What::Op,
                        }));
                    }
                }
            }
        }
    }
}

/// Some entries, and those that the lines give, up to the end.
fn read_entries(lines: &mut Lines, first: Vec<Entry>) -> Result<Vec<Entry>, ReadFault>
    ensures found { IfOk result (λ entries.
        AreEntries first.items lines.old entries.items lines.new) }
    ensures refused { IfErr result (AreNoEntries first.items lines.old) }
{
    let mut entries = first;
    loop {
        let line = lines.number();
        let words = Words::new(lines.line()?);
        match entry_of(&mut words.copy()) {
            Some(entry) => entries.push(entry)?,
            None => {
                if is_end(&mut words.copy()) {
                    return Ok(entries);
                }
                return Err(ReadFault::Text(TextFault {
                    line,
                    what: What::Place,
                }));
            }
        }
    }
}

/// Some entries that make standings, and those that the lines give, up to the end.
fn read_pairs(lines: &mut Lines, first: Vec<PairEntry>) -> Result<Vec<PairEntry>, ReadFault>
    ensures found { IfOk result (λ entries.
        ArePairs first.items lines.old entries.items lines.new) }
    ensures refused { IfErr result (AreNoPairs first.items lines.old) }
{
    let mut entries = first;
    loop {
        let line = lines.number();
        let words = Words::new(lines.line()?);
        match pair_entry_of(&mut words.copy()) {
            Some(entry) => entries.push(entry)?,
            None => {
                if is_end(&mut words.copy()) {
                    return Ok(entries);
                }
                return Err(ReadFault::Text(TextFault {
                    line,
                    what: What::Place,
                }));
            }
        }
    }
}

/// Some entries of a table of levels, and those that the lines give, up to the end.
fn read_levels(
    alloc: Global,
    lines: &mut Lines,
    first: Vec<LevelEntry>,
) -> Result<Vec<LevelEntry>, ReadFault>
    ensures found { IfOk result (λ entries. AreLevels (entries_said first.items) lines.old
        (entries_said entries.items) lines.new) }
    ensures refused { IfErr result (AreNoLevels (entries_said first.items) lines.old) }
{
    let mut entries = first;
    loop {
        let line = lines.number();
        let words = Words::new(lines.line()?);
        match level_entry_of(alloc, &words)? {
            Some(entry) => entries.push(entry)?,
            None => {
                if is_end(&mut words.copy()) {
                    return Ok(entries);
                }
                return Err(ReadFault::Text(TextFault {
                    line,
                    what: What::Place,
                }));
            }
        }
    }
}

/// Reads the end of a refutation whose ending has no entries.
fn read_end(lines: &mut Lines) -> Result<(), TextFault>
    ensures found { IfOk result (λ _. IsEnd lines.old lines.new) }
    ensures refused { IfErr result (IsNoEnd lines.old) }
{
    let line = lines.number();
    let mut words = Words::new(lines.line()?);
    if is_end(&mut words) {
        Ok(())
    } else {
        Err(TextFault {
            line,
            what: What::End,
        })
    }
}

/// Refuses bytes after the end.
pub(crate) fn no_more(lines: &Lines) -> Result<(), TextFault>
    ensures whole { IfOk result (λ _. lines.now.bytes ≡ []) }
    ensures refused { IfErr result (IsRest lines.now) }
{
    if lines.at_end() {
        Ok(())
    } else {
        Err(TextFault {
            line: lines.number(),
            what: What::Rest,
        })
    }
}
