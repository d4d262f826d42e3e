//! Searches for a legal order that begin with a guide, or have a limit.
use book_base::Place;
use book_text::read_book;
use certificate_text::{BookVerdict, verify_within};
use frontier_check::{Guide, Verdict, check_from};
use kind_search::SearchedKind;
use seq_objects::{DONE, wrapping_value_reply};
use std::alloc::Global;
use std::test::Fail;

// 5 is put in, and then it is taken.
const TAKEN: &[u8] =
    b"book 2\nobject queue\ncallers 2\ncalls 1 1\n0 0 enq 5 done view 0:1\n1 0 deq =5 view 0:1 1:1\nend\n";

// 5 is put in, and then a take finds nothing.
const LOST: &[u8] =
    b"book 2\nobject queue\ncallers 2\ncalls 1 1\n0 0 enq 5 done view 0:1\n1 0 deq none view 0:1 1:1\nend\n";

// A stack of three callers, whose one legal order begins with the second caller's call.
const OF_A_STACK: &[u8] =
    b"book 2\nobject stack\ncallers 3\ncalls 1 1 1\n0 0 push 5 done view 0:1 1:1\n1 0 push 6 done view 0:1 1:1\n2 0 pop =5 view 0:1 1:1 2:1\nend\n";

// Whether a search that begins with the guide finds the book with this text legal.
fn is_legal(alloc: Global, text: &[u8], guide: &mut Guide) -> Result<bool, Fail> {
    let (kind, book) = read_book(alloc, text)?;
    let verdict = check_from(alloc, &SearchedKind { kind }, &book, guide)?;
    Ok(matches!(verdict, Verdict::Legal(_)))
}

fn place(caller: u32, reply: u64) -> Place {
    Place {
        caller,
        number: 0,
        reply,
    }
}

#[test]
fn a_guide_keeps_the_last_order_that_was_found(rt: HostRuntime) -> Result<(), Fail> {
    let mut guide = Guide::new(rt.alloc())?;
    assert_eq!(rt; guide.places().len(), 0);
    let order = [place(0, DONE), place(1, wrapping_value_reply(5))];
    assert!(rt; is_legal(rt.alloc(), TAKEN, &mut guide)?);
    assert_eq!(rt; guide.places(), order.as_slice());
    assert!(rt; !is_legal(rt.alloc(), LOST, &mut guide)?);
    assert_eq!(rt; guide.places(), order.as_slice());
    Ok(())
}

#[test]
fn a_guide_of_another_object_and_size_changes_no_verdict(rt: HostRuntime) -> Result<(), Fail> {
    let mut guide = Guide::new(rt.alloc())?;
    let order = [
        place(1, DONE),
        place(0, DONE),
        place(2, wrapping_value_reply(5)),
    ];
    assert!(rt; is_legal(rt.alloc(), OF_A_STACK, &mut guide)?);
    assert_eq!(rt; guide.places(), order.as_slice());
    assert!(rt; !is_legal(rt.alloc(), LOST, &mut guide)?);
    assert!(rt; is_legal(rt.alloc(), TAKEN, &mut guide)?);
    assert!(rt; is_legal(rt.alloc(), OF_A_STACK, &mut guide)?);
    Ok(())
}

// 5 is written, and then it is read.
const READ: &[u8] =
    b"book 2\nobject register\ncallers 1\ncalls 2\n0 0 write 5 done view 0:1\n0 1 read =5 view 0:2\nend\n";

// 5 is written, and then 6 is read.
const UNWRITTEN: &[u8] =
    b"book 2\nobject register\ncallers 1\ncalls 2\n0 0 write 5 done view 0:1\n0 1 read =6 view 0:2\nend\n";

#[test]
fn a_search_with_a_limit_says_what_one_without_says_or_nothing(
    rt: HostRuntime,
) -> Result<(), Fail> {
    // an order of two calls takes two steps
    for steps in 0..2 {
        assert_eq!(rt; verify_within(rt.alloc(), READ, Some(steps))?, None);
    }
    assert_eq!(rt; verify_within(rt.alloc(), UNWRITTEN, Some(0))?, None);
    for steps in [Some(100), Some(u64::MAX), None] {
        let legal = verify_within(rt.alloc(), READ, steps)?;
        assert_eq!(rt; legal, Some(BookVerdict::Legal));
        let illegal = verify_within(rt.alloc(), UNWRITTEN, steps)?;
        assert_eq!(rt; illegal, Some(BookVerdict::Illegal));
    }
    Ok(())
}
