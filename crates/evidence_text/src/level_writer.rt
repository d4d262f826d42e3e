//! The lines of a table of levels in the text of a refutation.

ghost use Rattle.std.specs.Prelude.{◌≡◌, ◌∷◌, ◌++◌, [], ◌<◌, length, map, decimal, codes, IsTrue, OnOk};
ghost use Rattle.std.specs.List.{AllByRecursion};
ghost use Rattle.text_fields.specs.Lines.{line_text};
ghost use Rattle.text_fields.specs.Counts.{AreNumbers};
ghost use Rattle.level_refutations.specs.Said.{entry_said, entries_said};
ghost use Rattle.refutation_text.specs.Said.{LevelsLine, TableLine};
ghost use Rattle.evidence_text.specs.Written.{HasNumbers, IsWritten};

use crate::writer::put_numbers;
use book_base::NoMemory;
use book_text::fields::put_spaced;
use level_refutations::LevelEntry;

/// Whether each list of entries of a table of levels has a number, as it has in a text.
pub(crate) fn have_numbers(entries: &[LevelEntry]) -> bool
    ensures { IsTrue result → AllByRecursion HasNumbers (entries_said entries.now) }
{
    for k in 0..entries.len() {
        if !has_numbers(&entries[k]) {
            return false;
        }
    }
    true
}

/// Whether the list of an entry has a number, where the entry has a list.
fn has_numbers(entry: &LevelEntry) -> bool
    ensures { IsTrue result → HasNumbers (entry_said entry.now) }
{
    match entry {
        LevelEntry::Cut(_, _) => true,
        LevelEntry::Level(_, below) => !below.is_empty(),
        LevelEntry::At(_, cuts) => !cuts.is_empty(),
    }
}

/// Appends the line that begins a table of levels, and the lines of its entries.
pub(crate) fn put_table(out: &mut Vec<u8>, entries: &[LevelEntry]) -> Result<(), NoMemory>
    requires { AllByRecursion HasNumbers (entries_said entries.now) }
    ensures { OnOk result (IsWritten out.old.items
        (LevelsLine ∷ map TableLine (entries_said entries.now)) out.new.items) }
{
    out.extend_from_slice(b"closed levels\n")?;
    for entry in entries {
        put_level_entry(out, entry)?;
    }
    Ok(())
}

/// Appends the line of an entry of a table of levels.
fn put_level_entry(out: &mut Vec<u8>, entry: &LevelEntry) -> Result<(), NoMemory>
    requires { HasNumbers (entry_said entry.now) }
    ensures { OnOk result (IsWritten out.old.items (TableLine (entry_said entry.now) ∷ [])
        out.new.items) }
{
    match entry {
        LevelEntry::Cut(from, caller) => put_cut_line(out, *from, *caller),
        LevelEntry::Level(value, below) => put_list_line(out, b"level", u64::from(*value), below),
        LevelEntry::At(level, cuts) => put_list_line(out, b"at", *level, cuts),
    }
}

/// Appends the line that makes a cut.
fn put_cut_line(out: &mut Vec<u8>, from: u64, caller: u64) -> Result<(), NoMemory>
    ensures { OnOk result (out.new.items
        ≡ out.old.items ++ line_text (codes "cut" ∷ decimal from ∷ decimal caller ∷ [])) }
{
    out.extend_from_slice(b"cut")?;
    put_spaced(out, from)?;
    put_spaced(out, caller)?;
    out.push(b'\n')?;
    Ok(())
}

/// Appends a line of a first word, a number, and numbers.
fn put_list_line(
    out: &mut Vec<u8>,
    first: &[u8],
    number: u64,
    others: &[u64],
) -> Result<(), NoMemory>
    ensures text { OnOk result (out.new.items ≡ out.old.items
        ++ line_text (first.now ∷ decimal number ∷ map decimal others.now)) }
    ensures small { OnOk result (AreNumbers others.now) }
{
    out.extend_from_slice(first)?;
    put_spaced(out, number)?;
    put_numbers(out, others)?;
    out.push(b'\n')?;
    Ok(())
}
