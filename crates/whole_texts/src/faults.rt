//! The texts of faults. No two numbers of a fault are equal.
use book_base::{BookFault, Call, NoMemory, ReadFault, TextFault, What};
use byte_streams::{Failed, ReadAllError};
use order_check::OrderFault;
use std::test::Fail;

#[test]
fn a_book_says_why_it_refuses(rt: HostRuntime) -> Result<(), Fail> {
    let crossing = Call {
        caller: 3,
        number: 7,
    };
    let cases: [(BookFault, &str); 7] = [
        (
            BookFault::TooManyCalls,
            "the caller has as many calls as it may have",
        ),
        (BookFault::NoSuchCall, "the caller has no unanswered call"),
        (
            BookFault::ViewOutside(3),
            "the view counts more calls of caller 3 than it made",
        ),
        (
            BookFault::ViewLacksOwn(3),
            "the view counts 3 of its caller's calls, and lacks its own",
        ),
        (
            BookFault::ViewHasLater(7),
            "the view counts 7 of its caller's calls, and has later ones",
        ),
        (
            BookFault::ViewsCross(crossing),
            "neither the view nor that of call 7 of caller 3 is within the other",
        ),
        (BookFault::NoMemory, "out of memory"),
    ];
    for (fault, text) in cases {
        assert_eq!(rt; fault.to_string(rt.alloc())?.as_str(), text);
    }
    Ok(())
}

// In `Late`, the earlier place is the first number.
#[test]
fn an_order_is_told_the_test_that_it_fails(rt: HostRuntime) -> Result<(), Fail> {
    let cases: [(OrderFault, &str); 7] = [
        (
            OrderFault::Unknown(4),
            "the call at place 4 isn't in the book",
        ),
        (
            OrderFault::Twice(4),
            "the call at place 4 stands at an earlier one",
        ),
        (
            OrderFault::Skipped(4),
            "the previous call of the caller at place 4 doesn't stand earlier",
        ),
        (
            OrderFault::Late(4, 9),
            "the call at place 9 precedes that at the earlier place 4",
        ),
        (
            OrderFault::Record(4, 5, 6),
            "the call at place 4 is answered with the reply word 5, and the place has 6",
        ),
        (
            OrderFault::Run(4, 5, 6),
            "at place 4 the object gives the reply word 5, and the place has 6",
        ),
        (
            OrderFault::Missing(3, 7),
            "call 7 of caller 3 is answered, and stands at no place",
        ),
    ];
    for (fault, text) in cases {
        assert_eq!(rt; fault.to_string(rt.alloc())?.as_str(), text);
    }
    Ok(())
}

#[test]
fn a_text_is_told_what_is_wrong(rt: HostRuntime) -> Result<(), Fail> {
    let cases: [(What, &str); 22] = [
        (What::Long, "the text is too long"),
        (What::Cut, "the line has no end"),
        (What::Head, "the title is wrong"),
        (What::Object, "no object is named"),
        (What::Callers, "the number of callers is wrong"),
        (What::Calls, "the numbers of calls are wrong"),
        (What::Place, "the line isn't that of the call that is due"),
        (What::Op, "there is no such operation"),
        (What::Gap, "an earlier call of the caller is unanswered"),
        (What::Reply, "there is no such reply"),
        (What::View, "the view isn't written right"),
        (
            What::ViewOutside,
            "the view counts more calls of a caller than it made",
        ),
        (What::ViewLacksOwn, "the view lacks its own call"),
        (What::ViewHasLater, "the view has later calls of its caller"),
        (What::ViewsCross, "the view and an earlier one cross"),
        (What::Mark, "what follows the view isn't written right"),
        (What::Seen, "the seen cut is wrong"),
        (
            What::Last,
            "the caller has a further line after one that is not ok",
        ),
        (What::Stop, "the stop is wrong"),
        (What::Turns, "the turns are wrong"),
        (What::End, "the line isn't the end that is due"),
        (What::Rest, "the text goes on after its end"),
    ];
    for (what, text) in cases {
        assert_eq!(rt; what.to_string(rt.alloc())?.as_str(), text);
    }
    Ok(())
}

#[test]
fn what_was_not_read_is_told_with_its_line(rt: HostRuntime) -> Result<(), Fail> {
    let fault = TextFault {
        line: 12,
        what: What::Gap,
    };
    let told = "line 12: an earlier call of the caller is unanswered";
    assert_eq!(rt; fault.to_string(rt.alloc())?.as_str(), told);
    assert_eq!(rt;
        ReadFault::Text(fault).to_string(rt.alloc())?.as_str(),
        told
    );
    let lacking = "out of memory";
    assert_eq!(rt;
        ReadFault::NoMemory.to_string(rt.alloc())?.as_str(),
        lacking
    );
    assert_eq!(rt;
        ReadAllError::NoMemory.to_string(rt.alloc())?.as_str(),
        lacking
    );
    assert_eq!(rt; NoMemory.to_string(rt.alloc())?.as_str(), lacking);
    Ok(())
}

#[test]
fn a_failed_read_or_write_is_told(rt: HostRuntime) -> Result<(), Fail> {
    let failed = Failed.to_string(rt.alloc())?;
    assert_eq!(rt; failed.as_str(), "a read or a write failed");
    let unread = ReadAllError::Fault.to_string(rt.alloc())?;
    assert_eq!(rt; unread.as_str(), "a read failed");
    Ok(())
}
