//! Searches that begin after the last mark of a kept order that still stands, in a book that has
//! grown since that order was found.
ghost use Rattle.std.specs.Prelude.{◌≡◌, length, IfOk};

use book_base::{Book, Cut, OpWord, Place};
use frontier_check::{KeptOrder, check_after};
use kind_search::SearchedKind;
use seq_objects::{DONE, Kind, NONE, wrapping_value_reply};
use std::alloc::Global;
use std::test::Fail;

const ENQUEUE_5: OpWord = 4294967301;

const ENQUEUE_6: OpWord = 4294967302;

const DEQUEUE: OpWord = 8589934592;

/// How many calls the second caller makes.
const CALLS: u64 = 40;

fn two(first: u64, second: u64) -> Cut
    ensures { length result ≡ 2 }
{
    let mut cut = Cut::zero(2);
    cut.set(0, first);
    cut.set(1, second);
    cut
}

// The first caller's enqueue of 5 has no answer. The second caller has made its first call and then
// others. Each call of the second caller has its answer, and a view that holds the enqueue.
fn half_answered(alloc: Global, first: (OpWord, u64), others: (OpWord, u64)) -> Result<Book, Fail>
    ensures { IfOk result (λ book. length book ≡ 2) }
{
    let mut book = Book::new(alloc, 2)?;
    book.add_call(0, ENQUEUE_5)?;
    book.add_call(1, first.0)?;
    book.add_answer(1, first.1, two(1, 1))?;
    for number in 1..CALLS {
        book.add_call(1, others.0)?;
        book.add_answer(1, others.1, two(1, number + 1))?;
    }
    Ok(book)
}

// The order that a search finds for a queue's book once the first caller's call is answered. The
// search begins after the last mark that still stands of the order found before the answer.
fn found_later(
    alloc: Global,
    mut book: Book,
    reply: u64,
    view: Cut,
) -> Result<Option<KeptOrder>, Fail>
    requires two { length book ≡ 2 }
    requires wide { length view ≡ 2 }
{
    let standing = check_after(alloc, &SearchedKind { kind: Kind::Queue }, &book, None)?;
    book.add_answer(0, reply, view)?;
    Ok(check_after(alloc, &SearchedKind { kind: Kind::Queue }, &book, standing)?)
}

// The first place of an order that was found, and how many places it has.
fn begins(found: &Option<KeptOrder>) -> Option<(Place, usize)> {
    let found = found.as_ref()?;
    let first = found.order.first()?;
    Some((*first, found.order.len()))
}

fn first_place(reply: u64) -> Place {
    Place {
        caller: 0,
        number: 0,
        reply,
    }
}

// While the first caller's call is unanswered, the second caller's enqueues alone are a legal
// order. Then the first caller's record comes, with a view that holds none of them, so its enqueue
// comes before all of them.
#[test]
fn a_late_record_with_an_old_view_leaves_nothing_standing(rt: HostRuntime) -> Result<(), Fail> {
    let enqueue = (ENQUEUE_6, DONE);
    let book = half_answered(rt.alloc(), enqueue, enqueue)?;
    let found = found_later(rt.alloc(), book, DONE, two(1, 0))?;
    assert_eq!(rt; begins(&found), Some((first_place(DONE), 41)));
    Ok(())
}

// The first order begins with the unanswered enqueue, since 5 is dequeued. Then this enqueue is
// answered with the reply that it has in that order.
#[test]
fn an_open_call_of_the_order_is_answered_as_it_stood(rt: HostRuntime) -> Result<(), Fail> {
    let book = half_answered(
        rt.alloc(),
        (DEQUEUE, wrapping_value_reply(5)),
        (DEQUEUE, NONE),
    )?;
    let found = found_later(rt.alloc(), book, DONE, two(1, CALLS))?;
    assert_eq!(rt; begins(&found), Some((first_place(DONE), 41)));
    Ok(())
}

// An enqueue that is unanswered in the first order is answered with a reply that no enqueue has.
#[test]
fn an_open_call_of_the_order_has_another_reply(rt: HostRuntime) -> Result<(), Fail> {
    let book = half_answered(
        rt.alloc(),
        (DEQUEUE, wrapping_value_reply(5)),
        (DEQUEUE, NONE),
    )?;
    let found = found_later(rt.alloc(), book, NONE, two(1, CALLS))?;
    assert_eq!(rt; begins(&found), None);
    Ok(())
}
