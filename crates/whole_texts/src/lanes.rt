//! The calls of a book as intervals in its sketch.
use book_base::Call;
use book_text::read_book;
use sketch::{Interval, call_lanes, sketch};
use std::test::Fail;

fn interval(caller: u32, number: u64, begin: usize, end: usize, is_open: bool) -> Interval {
    Interval {
        call: Call { caller, number },
        begin,
        end,
        is_open,
    }
}

// The events are the invocations of call 0 of caller 0 and of call 0 of caller 1, the return of
// call 0 of caller 1, and the invocation of call 1 of caller 0.
#[test]
fn an_unanswered_call_ends_where_its_callers_next_one_begins(rt: HostRuntime) -> Result<(), Fail> {
    let (_kind, book) = read_book(
        rt.alloc(),
        b"book 2\nobject queue\ncallers 2\ncalls 2 1\n0 0 enq 5\n0 1 enq 6\n1 0 deq =5 view 0:1 1:1\nend\n",
    )?;
    let events = sketch(rt.alloc(), &book)?;
    let lanes = call_lanes(rt.alloc(), &book, &events)?;
    assert_eq!(rt; lanes.len(), 2);
    assert_eq!(rt;
        lanes[0].as_slice(),
        [interval(0, 0, 0, 3, true), interval(0, 1, 3, 4, true)].as_slice()
    );
    assert_eq!(rt;
        lanes[1].as_slice(),
        [interval(1, 0, 1, 3, false)].as_slice()
    );
    Ok(())
}
