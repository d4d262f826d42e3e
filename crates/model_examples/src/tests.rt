//! Judgements of books of a bounded queue with two places.

ghost use Rattle.std.specs.Prelude.{◌≡◌, length};

use crate::{BoundedQueue, REFUSED, TAKE, TAKEN_IN};
use book_base::{Book, Cut, OpWord};
use frontier_check::Verdict;
use own_objects::judge_own;
use std::alloc::Global;
use std::test::Fail;

// A caller begins a call of an operation, or its call gets this reply.
#[derive(Clone, Copy)]
enum Event {
    Begins(u32, OpWord),
    Gets(u32, u64),
}

use Event::{Begins, Gets};

// Whether the book of a history of two callers is legal: a call's view has the calls that have
// begun when it ends.
fn is_legal(alloc: Global, events: &[Event]) -> Result<bool, Fail> {
    let mut book = Book::new(alloc, 2)?;
    for event in events {
        add(&mut book, *event)?;
    }
    let verdict = judge_own(alloc, &BoundedQueue { places: 2 }, &book)?;
    Ok(verdict != Verdict::Illegal)
}

fn add(book: &mut Book, event: Event) -> Result<(), Fail> {
    if book.callers() != 2 {
        return Err("another number of callers".into());
    }
    match event {
        Begins(caller, op) => {
            if caller > 1 {
                return Err("no such caller".into());
            }
            book.add_call(caller, op)?;
        }
        Gets(caller, reply) => {
            if caller > 1 {
                return Err("no such caller".into());
            }
            let view = begun(book);
            book.add_answer(caller, reply, view)?;
        }
    }
    Ok(())
}

fn begun(book: &Book) -> Cut
    requires { length book.now ≡ 2 }
    ensures { length result ≡ 2 }
{
    let mut view = Cut::zero(2);
    view.set(0, book.calls(0));
    view.set(1, book.calls(1));
    view
}

#[test]
fn a_full_queue_refuses(rt: HostRuntime) -> Result<(), Fail> {
    let alloc = rt.alloc();
    // 5 and 6 take both places, so 7 is refused, and 5 comes out first.
    let refused = [
        Begins(0, 5),
        Gets(0, TAKEN_IN),
        Begins(0, 6),
        Gets(0, TAKEN_IN),
        Begins(0, 7),
        Gets(0, REFUSED),
        Begins(1, TAKE),
        Gets(1, 5),
    ];
    assert!(rt; is_legal(alloc, &refused)?);
    let mut taken_in = refused;
    taken_in[5] = Gets(0, TAKEN_IN);
    assert!(rt; !is_legal(alloc, &taken_in)?);
    let mut newest_first = refused;
    newest_first[7] = Gets(1, 6);
    assert!(rt; !is_legal(alloc, &newest_first)?);
    Ok(())
}

#[test]
fn a_take_beside_a_put_may_make_a_place(rt: HostRuntime) -> Result<(), Fail> {
    let alloc = rt.alloc();
    // The put of 7 begins before the take of 5 ends, so it may come after that.
    let beside = [
        Begins(0, 5),
        Gets(0, TAKEN_IN),
        Begins(0, 6),
        Gets(0, TAKEN_IN),
        Begins(1, TAKE),
        Begins(0, 7),
        Gets(0, TAKEN_IN),
        Gets(1, 5),
        Begins(1, TAKE),
        Gets(1, 6),
        Begins(1, TAKE),
        Gets(1, 7),
        Begins(1, TAKE),
        Gets(1, 0),
    ];
    assert!(rt; is_legal(alloc, &beside)?);
    let mut lost = beside;
    lost[11] = Gets(1, 0);
    assert!(rt; !is_legal(alloc, &lost)?);
    Ok(())
}

#[test]
fn an_unanswered_put_may_have_taken_effect(rt: HostRuntime) -> Result<(), Fail> {
    let alloc = rt.alloc();
    let unanswered = [Begins(0, 5), Begins(1, TAKE), Gets(1, 5)];
    assert!(rt; is_legal(alloc, &unanswered)?);
    let not_yet = [Begins(0, 5), Begins(1, TAKE), Gets(1, 0)];
    assert!(rt; is_legal(alloc, &not_yet)?);
    let never_put = [Begins(0, 5), Begins(1, TAKE), Gets(1, 6)];
    assert!(rt; !is_legal(alloc, &never_put)?);
    Ok(())
}
