//! What stacks decide of whole books without a search of orders.
use book_text::read_book;
use kind_search::SearchedKind;
use search_hints::{Decision, SearchHints};
use std::alloc::Global;
use std::test::Fail;

// One value is put in twice, and taken as often.
const TWICE: &[u8] =
    b"book 2\nobject stack\ncallers 3\ncalls 1 1 2\n0 0 push 1 done view 0:1 1:1 2:1\n1 0 push 1 done view 0:1 1:1 2:1\n2 0 pop =1 view 0:1 1:1 2:1\n2 1 pop =1 view 0:1 1:1 2:2\nend\n";

// One value is put in twice, and taken three times.
const ONCE_MORE: &[u8] =
    b"book 2\nobject stack\ncallers 3\ncalls 1 1 3\n0 0 push 1 done view 0:1 1:1 2:1\n1 0 push 1 done view 0:1 1:1 2:1\n2 0 pop =1 view 0:1 1:1 2:1\n2 1 pop =1 view 0:1 1:1 2:2\n2 2 pop =1 view 0:1 1:1 2:3\nend\n";

// A value is put in, and then another one twice, and then the first one is taken.
const LOWER: &[u8] =
    b"book 2\nobject stack\ncallers 2\ncalls 3 1\n0 0 push 1 done view 0:1\n0 1 push 2 done view 0:2\n0 2 push 2 done view 0:3\n1 0 pop =1 view 0:3 1:1\nend\n";

// A value is put in twice and taken once, and then a take finds nothing.
const LOST: &[u8] =
    b"book 2\nobject stack\ncallers 2\ncalls 2 2\n0 0 push 1 done view 0:1\n0 1 push 1 done view 0:2\n1 0 pop =1 view 0:2 1:1\n1 1 pop none view 0:2 1:2\nend\n";

// A value is put in twice and taken once. Then a take finds nothing, beside an unanswered take that
// may have taken the value a second time.
const TAKEN: &[u8] =
    b"book 2\nobject stack\ncallers 3\ncalls 2 2 1\n0 0 push 1 done view 0:1\n0 1 push 1 done view 0:2\n1 0 pop =1 view 0:2 1:1\n1 1 pop none view 0:2 1:2 2:1\n2 0 pop\nend\n";

// Two different values are put in by calls that overlap, and then taken one after the other.
const APART: &[u8] =
    b"book 2\nobject stack\ncallers 3\ncalls 1 1 2\n0 0 push 1 done view 0:1 1:1 2:1\n1 0 push 2 done view 0:1 1:1 2:1\n2 0 pop =1 view 0:1 1:1 2:1\n2 1 pop =2 view 0:1 1:1 2:2\nend\n";

// A value is put in, and then another one, and then the first one is taken.
const LOWER_APART: &[u8] =
    b"book 2\nobject stack\ncallers 2\ncalls 2 1\n0 0 push 1 done view 0:1\n0 1 push 2 done view 0:2\n1 0 pop =1 view 0:2 1:1\nend\n";

// A view holds two unanswered calls of one caller.
const TWO_OPEN: &[u8] =
    b"book 2\nobject stack\ncallers 2\ncalls 2 1\n0 0 push 1\n0 1 push 2\n1 0 pop =2 view 0:2 1:1\nend\n";

// What the sequential object of the book's kind decides of the book with this text.
fn decision(alloc: Global, text: &[u8]) -> Result<Decision, Fail> {
    let (kind, book) = read_book(alloc, text)?;
    Ok(SearchedKind { kind }.decide(alloc, &book)?)
}

#[test]
fn a_stack_with_equal_values_is_decided(rt: HostRuntime) -> Result<(), Fail> {
    assert!(rt; matches!(decision(rt.alloc(), TWICE)?, Decision::Order(_)));
    assert!(rt; matches!(decision(rt.alloc(), ONCE_MORE)?, Decision::NoOrder));
    Ok(())
}

#[test]
fn a_stack_that_gives_the_lower_item_first_is_decided(rt: HostRuntime) -> Result<(), Fail> {
    assert!(rt; matches!(decision(rt.alloc(), LOWER)?, Decision::NoOrder));
    Ok(())
}

#[test]
fn a_stack_that_finds_nothing_is_decided(rt: HostRuntime) -> Result<(), Fail> {
    assert!(rt; matches!(decision(rt.alloc(), LOST)?, Decision::NoOrder));
    assert!(rt; matches!(decision(rt.alloc(), TAKEN)?, Decision::Order(_)));
    Ok(())
}

#[test]
fn a_stack_whose_values_differ_is_decided(rt: HostRuntime) -> Result<(), Fail> {
    assert!(rt; matches!(decision(rt.alloc(), APART)?, Decision::Order(_)));
    assert!(rt; matches!(decision(rt.alloc(), LOWER_APART)?, Decision::NoOrder));
    Ok(())
}

#[test]
fn a_stack_with_two_unanswered_calls_of_a_caller_is_left_to_the_search(
    rt: HostRuntime,
) -> Result<(), Fail> {
    assert!(rt; matches!(decision(rt.alloc(), TWO_OPEN)?, Decision::Unsaid));
    Ok(())
}
