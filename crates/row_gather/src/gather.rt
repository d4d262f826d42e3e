ghost use Rattle.std.specs.Prelude.{◌≡◌, ◌+◌, ◌≤◌, ◌↔◌, IfOk, IsTrue, None};
ghost use Rattle.world_core.specs.declared.region.Region.{Region};
ghost use Rattle.world_core.specs.Calls.{IsGathered};
ghost use Rattle.world_laws.specs.Given.{IsGivenIn};
ghost use Rattle.row_table.specs.Callers.{local_with, stance_of, IsCallerOf, IsStill};
ghost use Rattle.row_gather.specs.Peeks.{OnlyPeeks};
ghost use Rattle.row_gather.specs.Words.{words_of_book};
ghost use Rattle.row_gather.specs.Exact.{IsTheBookAt};
ghost use Rattle.row_gather.specs.Gathered.{IsGatheredBy, HoldsAll, IsBegunWith, TicksForNew};

use crate::answers::add_answers;
use crate::gathered::Gathered;
use crate::held::held_calls;
use crate::operations::add_calls;
use crate::records::peek_records;
use book_base::{Book, Cut, NoMemory};
use row_table::{Caller, Rows, Steps};
use std::alloc::Global;
use std::sync::ledger::Ledger;
use world_core::Program;

// Whether the cut has a count for each caller of the book and no others, and holds all records of
// the book.
fn holds_all(cut: &Cut, book: &Book) -> bool
    ensures { IsTrue result ↔ HoldsAll cut.now book.now }
{
    if book.callers() != cut.n() {
        return false;
    }
    for j in 0..cut.n() {
        if book.answers(j) > cut.get(j) {
            return false;
        }
    }
    true
}

// The book with which the gathering at a cut begins: the kept book, where the cut has one count for
// each of its callers and holds all its records; otherwise the book without a call.
fn begin(alloc: Global, gathered: Option<Gathered>, cut: &Cut) -> Result<Book, NoMemory>
    ensures { IfOk result (IsBegunWith gathered cut.now) }
{
    if let Some(kept) = gathered {
        if holds_all(cut, &kept.book) {
            return Ok(kept.book);
        }
    }
    Book::new(alloc, cut.n())
}

/// Gathers the book at a cut from the book that the caller has gathered before, where there is one:
/// only the words that the earlier book lacks are peeked.
///
/// The book at a cut has the records that the cut holds, of all callers, and the calls that some of
/// their views hold, answered or not (Castañeda and Rodríguez 2023). It is read from the rows of
/// the table. The earlier book grows to the new one where the cut has one count for each of its
/// callers and holds all its records, as the cut of a later scan of M by the same caller does;
/// otherwise the new book is read from the beginning.
///
/// The cut is one that a scan of M gave this caller, and no scan of the caller is under way. Each
/// word of the gathered book costs one peek, except for the words of the earlier book where that
/// one grows. Where memory is lacking, the caller may have peeked some of these words, and the
/// earlier book is gone.
pub fn grow_at<P: Program, L: Ledger>(
    alloc: Global,
    rows: &Rows<P>,
    caller: &mut Caller<P>,
    gathered: Option<Gathered>,
    cut: &Cut,
    steps: &mut Steps<L>,
) -> Result<Gathered, NoMemory>
    // The caller belongs to these rows.
    requires caller { IsCallerOf P.meaning rows.now caller.old }
    // A scan of M gave the caller this cut.
    requires given { IsGivenIn (local_with caller.old).cuts Region.M cut.now }
    // The caller has no scan under way.
    requires unscanned { (local_with caller.old).scan ≡ None }
    // Where a book is handed in, the caller has gathered it at the cut that comes with it, by
    // peeking each of its words.
    requires gathered { IsGatheredBy (local_with caller.old) gathered }
    // The caller still belongs to these rows, with the same number.
    ensures caller { IsStill P.meaning rows.now caller.old caller.new }
    // The caller keeps its stance.
    ensures stance { stance_of caller.new ≡ stance_of caller.old }
    // The caller has made peeks and no other event, and the counter of steps has risen by 1 for
    // each of them.
    ensures peeks { OnlyPeeks caller.old caller.new steps.old steps.new }
    // The cut that is returned with the gathered book is the cut `cut`.
    ensures cut { IfOk result (λ g. g.cut ≡ cut.now) }
    // The caller has gathered the book at this cut, by peeking each of its words, and the book is
    // of as many callers as the rows have.
    ensures gathered { IfOk result (λ g.
        IsGathered rows.now.callers (local_with caller.new) cut.now g.book) }
    // In each reachable world in which the caller has its local, the gathered book is the book at
    // this cut, taken from the book of all callers' calls.
    ensures exact { IfOk result (λ g. IsTheBookAt P.meaning rows.now caller.new cut.now g.book) }
    // Where no book was handed in, the counter of steps has risen by the number of row words of the
    // gathered book. Where the book that was handed in is of as many callers as the rows have, and
    // its cut is within the new one, the counter has risen by the number of row words that the
    // gathered book has and the earlier one lacks.
    ensures ticks { IfOk result (λ g. TicksForNew rows.now.callers gathered g steps.old steps.new) }
    // The counter of steps has risen by at most the number of row words of the gathered book.
    ensures most { IfOk result (λ g. steps.new ≤ steps.old + words_of_book g.book) }
{
    let mut book = begin(alloc, gathered, cut)?;
    let records = peek_records(alloc, rows, caller, &book, cut, steps)?;
    let held = held_calls(cut.n(), &records);
    add_calls(rows, caller, &mut book, &held, steps)?;
    add_answers(&mut book, &records)?;
    Ok(Gathered { book, cut: *cut })
}
