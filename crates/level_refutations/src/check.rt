ghost use Rattle.std.specs.Prelude.{◌≡◌, IfOk, IfErr, OnOk, IsOk};
ghost use Rattle.level_refutations.specs.Closed.{MakeClosed};
ghost use Rattle.level_refutations.specs.Fault.{IsFirstFault};
ghost use Rattle.level_refutations.specs.Laws.{StackHasNoOrder};

use crate::cuts::cuts_of;
use crate::entry::LevelEntry;
use crate::fault::LevelFault;
use crate::levels::Levels;
use crate::nodes::{known_of, nodes_of};
use crate::table::StoredTable;
use book_base::{Book, NoMemory};
use std::alloc::Global;

/// Judges entries, without a search: Ok where they make a closed table, and else their first fault.
pub fn check_levels(
    alloc: Global,
    book: &Book,
    entries: &[LevelEntry],
) -> Result<Result<(), LevelFault>, NoMemory>
    // An answer Ok comes only where the entries make a closed table.
    ensures closed { IfOk result (λ answer. OnOk answer (MakeClosed book.now entries.now)) }
    // After an answer Ok the book has no legal order of a stack, which begins empty.
    ensures refuted { IfOk result (λ answer. OnOk answer (StackHasNoOrder book.now)) }
    // Entries that make a closed table are answered Ok, want of memory aside.
    ensures accepted { MakeClosed book.now entries.now → IfOk result IsOk }
    // A fault is that of the first test that the entries fail.
    ensures fault { IfOk result (λ answer. IfErr answer (IsFirstFault book.now entries.now)) }
{
    let levels = Levels::of(alloc, entries)?;
    let cuts = match cuts_of(alloc, book, entries, levels.len())? {
        Ok(cuts) => cuts,
        Err(fault) => return Ok(Err(fault)),
    };
    let nodes = nodes_of(alloc, entries)?;
    let known = known_of(alloc, &nodes, &cuts)?;
    let table = StoredTable {
        levels,
        cuts,
        nodes,
        known,
    };
    if !table.begins(book, entries) {
        return Ok(Err(LevelFault::Unlisted(0)));
    }
    Ok(table.first_open(book, entries))
}
