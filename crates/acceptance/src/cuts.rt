//! The books at the smaller cuts of a legal book. Each has a legal order too, since a book without
//! one has none after it has grown. The order that the search finds is accepted without a search.
ghost use Rattle.std.specs.Prelude.{◌≡◌, ℕ, length, IsTrue};
ghost use Rattle.book_base.specs.Cut.{IsWithin};
ghost use Rattle.book_base.specs.Book.{answered};

use anyhow::{Result, anyhow};
use book_base::{Book, Cut, Place};
use book_text::read_book;
use frontier_check::{Verdict, check};
use kind_search::SearchedKind;
use order_check::check_order;
use seq_objects::Kind;
use std::alloc::Global;

/// The greatest number of cuts of a book that are tried.
const MOST: u64 = 20_000;

/// Tries the cuts within the record counts of the book with this text, at most the first `MOST` of
/// them, and returns how many were tried. It fails at a cut at which the book has no legal order,
/// or where the check of orders doesn't accept the order that the search finds.
pub fn try_cuts(alloc: Global, text: &[u8]) -> Result<u64> {
    let (kind, book) = read_book(alloc, text).map_err(|_| anyhow!("the book can't be read"))?;
    let mut cut = Cut::zero(book.callers());
    for tried in 0..MOST {
        if !is_legal_at(alloc, kind, &book, &cut)? {
            return Err(anyhow!("no legal order at the cut number {tried}"));
        }
        if !step(&book, &mut cut) {
            return Ok(tried + 1);
        }
    }
    Ok(MOST)
}

// Whether the search finds a legal order of the book at a cut, and the check of orders accepts it.
// Fails where the cut isn't within the record counts of the book.
fn is_legal_at(alloc: Global, kind: Kind, book: &Book, cut: &Cut) -> Result<bool> {
    if cut.n() != book.callers() || !is_within_records(book, cut) {
        return Err(anyhow!("the cut is outside of the records"));
    }
    let part = book
        .at(alloc, cut)
        .map_err(|_| anyhow!("no memory for a book at a cut"))?;
    match check(alloc, &SearchedKind { kind }, &part).map_err(|_| anyhow!(
        "no memory for a check"
    ))? {
        Verdict::Legal(order) => is_accepted(alloc, kind, &part, &order),
        Verdict::Illegal => Ok(false),
    }
}

// Whether the check of orders, which makes no search, accepts an order of a book.
fn is_accepted(alloc: Global, kind: Kind, book: &Book, order: &[Place]) -> Result<bool> {
    let judged = check_order(alloc, &kind, book, order);
    Ok(
        judged
            .map_err(|_| anyhow!("no memory to judge an order"))?
            .is_ok(),
    )
}

// Whether a cut is within the record counts of a book.
fn is_within_records(book: &Book, cut: &Cut) -> bool
    requires { length cut.now ≡ length book.now }
    ensures { IsTrue result → IsWithin cut.now (answered book.now) }
{
    for i in 0..book.callers() {
        if cut.get(i) > book.answers(i) {
            return false;
        }
    }
    true
}

// Changes a cut to the next one within the record counts: the first count that can rise does, and
// those before it fall to 0. Returns false if the cut was the last one.
fn step(book: &Book, cut: &mut Cut) -> bool {
    for i in 0..book.callers() {
        if i >= cut.n() {
            return false;
        }
        let count = cut.get(i);
        if count < book.answers(i) {
            cut.set(i, count + 1);
            return true;
        }
        cut.set(i, 0);
    }
    false
}
