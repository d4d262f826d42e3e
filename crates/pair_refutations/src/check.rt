ghost use Rattle.std.specs.Prelude.{◌≡◌, IfOk, IfErr, OnOk, IsOk};
ghost use Rattle.book_base.specs.Order.{HasLegalOrder};
ghost use Rattle.seq_objects.specs.Objects.{kind_spec};
ghost use Rattle.pair_refutations.specs.Fault.{Refute, HasTable, PassesTests, IsFirstFault, fault_of};

use crate::closed::{OpenFault, first_open, made_by};
use crate::entry::PairEntry;
use crate::fault::PairFault;
use crate::standings::Standings;
use book_base::{Book, NoMemory};
use kind_search::QueueReader;
use queue_pairs::Table;
use refutations::first_impossible;
use search_hints::has_one_open;
use seq_objects::Kind;
use std::alloc::Global;

/// Judges entries, without a search: Ok where they refute a queue's book, and else their first
/// fault.
pub fn check_pairs(
    alloc: Global,
    book: &Book,
    entries: &[PairEntry],
) -> Result<Result<(), PairFault>, NoMemory>
    // An answer Ok comes only where the entries refute the book.
    ensures refuted { IfOk result (λ answer. OnOk answer (Refute book.now entries.now)) }
    // Entries that refute the book are answered Ok, want of memory aside.
    ensures accepted { Refute book.now entries.now → IfOk result IsOk }
    // A fault is that of the first test that the entries fail.
    ensures fault { IfOk result (λ answer. IfErr answer (IsFirstFault book.now entries.now)) }
    // An answer Ok comes only where a table has the book's calls.
    ensures tabled { IfOk result (λ answer. OnOk answer (HasTable book.now)) }
    // An answer Ok comes only where the book has no legal order.
    ensures none { IfOk result (λ answer.
        OnOk answer (HasLegalOrder (kind_spec Kind.Queue) book.now → ⊥)) }
{
    if !has_one_open(book) {
        return Ok(Err(PairFault::Open));
    }
    if let Some(call) = first_impossible(Kind::Queue, book) {
        return Ok(Err(PairFault::Odd(call)));
    }
    check_closed(alloc, book, entries)
}

// Judges entries for a book that passes the tests of a book.
fn check_closed(
    alloc: Global,
    book: &Book,
    entries: &[PairEntry],
) -> Result<Result<(), PairFault>, NoMemory>
    requires { PassesTests book.now }
    ensures tabled { IfOk result (λ answer. OnOk answer (HasTable book.now)) }
    ensures refuted { IfOk result (λ answer. OnOk answer (Refute book.now entries.now)) }
    ensures fault { IfOk result (λ answer. IfErr answer (IsFirstFault book.now entries.now)) }
    ensures none { IfOk result (λ answer.
        OnOk answer (HasLegalOrder (kind_spec Kind.Queue) book.now → ⊥)) }
{
    let table = Table::of(alloc, &QueueReader, book)?;
    let mut standings = Standings::start(alloc)?;
    for k in 0..entries.len() {
        let Some(next) = made_by(&table, &standings, entries[k]) else {
            return Ok(Err(PairFault::Unlisted(k as u64 + 1)));
        };
        standings.push(next)?;
    }
    match first_open(alloc, &table, &standings)? {
        Some(fault) => Ok(Err(fault_of(fault))),
        None => Ok(Ok(())),
    }
}

// The fault of entries whose list isn't closed.
fn fault_of(fault: OpenFault) -> PairFault
    ensures { result ≡ fault_of fault }
{
    match fault {
        OpenFault::Whole(number) => PairFault::Whole(number),
        OpenFault::Leads(number, by) => PairFault::Leads(number, by),
    }
}
