//! Tests of books and states, where each allocation succeeds.
ghost use Rattle.std.specs.Prelude.{◌≡◌, length};

use book_base::{BAD, Book, Call, Cut, MAX_CALLERS, MAX_CALLS, MAX_ROOM, State};
use std::test::Fail;

#[test]
fn limits_are_as_documented(rt: HostRuntime) {
    assert_eq!(rt; (MAX_CALLERS, MAX_CALLS, MAX_ROOM), (16, 256, 8192));
    assert_eq!(rt; BAD, 17_179_869_184);
}

#[test]
fn a_state_is_made_and_copied(rt: HostRuntime) -> Result<(), Fail> {
    let mut state = State::with_room(rt.alloc(), 2)?;
    state.push(7);
    let mut copy = state.copy(rt.alloc())?;
    copy.push(9);
    assert_eq!(rt; state.words(), [7].as_slice());
    assert_eq!(rt; copy.words(), [7, 9].as_slice());
    Ok(())
}

fn two(first: u64, second: u64) -> Cut
    ensures { length result ≡ 2 }
{
    let mut cut = Cut::zero(2);
    cut.set(0, first);
    cut.set(1, second);
    cut
}

// The first caller's call returns before the second caller's call is invoked.
#[test]
fn a_book_is_made_and_copied(rt: HostRuntime) -> Result<(), Fail> {
    let mut book = Book::new(rt.alloc(), 2)?;
    book.add_call(0, 10)?;
    book.add_call(1, 20)?;
    book.add_answer(0, 7, two(1, 0))?;
    let first = Call {
        caller: 0,
        number: 0,
    };
    let second = Call {
        caller: 1,
        number: 0,
    };
    let copy = book.copy(rt.alloc())?;
    book.add_answer(1, 8, two(1, 1))?;
    assert_eq!(rt; (copy.answers(0), copy.answers(1)), (1, 0));
    assert_eq!(rt; (copy.op(first), copy.op(second)), (10, 20));
    assert_eq!(rt; copy.record(first).reply, 7);
    assert!(rt; copy.precedes(first, second) && !copy.precedes(second, first));
    assert_eq!(rt; book.answers(1), 1);
    Ok(())
}
