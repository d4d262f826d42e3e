//! Books with a reply that the object never gives: they are judged before the object is asked to
//! decide them.
ghost use Rattle.seq_objects.specs.Objects.{kind_spec, kind_next-unknown};
ghost use Rattle.seq_objects.specs.Words.{is_known_word};

use book_base::{Book, NoMemory, OpWord, SeqObject, State};
use book_text::read_book;
use frontier_check::{Verdict, check};
use search_hints::{Decision, SearchHints};
use seq_objects::Kind;
use std::alloc::Global;
use std::test::Fail;

// Each reply is one that a queue may give.
const POSSIBLE: &[u8] =
    b"book 2\nobject queue\ncallers 2\ncalls 1 2\n0 0 enq 5 done view 0:1 1:1\n1 0 enq 6 done view 0:1 1:1\n1 1 deq =7 view 0:1 1:2\nend\n";

// The reply of the last call of the last caller is one that no dequeue has.
const LAST: &[u8] =
    b"book 2\nobject queue\ncallers 2\ncalls 1 2\n0 0 enq 5 done view 0:1 1:1\n1 0 enq 6 done view 0:1 1:1\n1 1 deq done view 0:1 1:2\nend\n";

// The reply of the first call of the first caller is one that no enqueue has.
const FIRST: &[u8] =
    b"book 2\nobject queue\ncallers 2\ncalls 1 2\n0 0 enq 5 =5 view 0:1 1:1\n1 0 enq 6 done view 0:1 1:1\n1 1 deq =5 view 0:1 1:2\nend\n";

// An object of a kind that is out of memory where it is asked to decide a book.
#[derive(Drop)]
struct Undecided {
    kind: Kind,
}

impl SeqObject for Undecided {
    ghost is_known = { λ object. is_known_word object.kind };

    ghost spec = { λ object. kind_spec object.kind };

    ghost unknown_is_bad = { λ object. kind_next-unknown object.kind };

    fn known(&self, op: OpWord) -> bool {
        self.kind.known(op)
    }

    fn capacity(&self, operations: u64) -> u64 {
        self.kind.capacity(operations)
    }

    fn reset(&self, state: &mut State) {
        self.kind.reset(state);
    }

    fn step(&self, state: &mut State, op: OpWord) -> u64 {
        self.kind.step(state, op)
    }

    fn may_reply(&self, op: OpWord, reply: u64) -> bool {
        self.kind.may_reply(op, reply)
    }
}

impl SearchHints for Undecided {
    fn decide(&self, _alloc: Global, _book: &Book) -> Result<Decision, NoMemory> {
        Err(NoMemory)
    }
}

// Whether the book with this text is found illegal before the object is asked to decide it.
fn is_illegal_at_once(alloc: Global, text: &[u8]) -> Result<bool, Fail> {
    let (kind, book) = read_book(alloc, text)?;
    match check(alloc, &Undecided { kind }, &book) {
        Ok(verdict) => Ok(matches!(verdict, Verdict::Illegal)),
        Err(NoMemory) => Ok(false),
    }
}

#[test]
fn a_reply_that_the_object_never_gives_is_found_at_once(rt: HostRuntime) -> Result<(), Fail> {
    assert!(rt; is_illegal_at_once(rt.alloc(), LAST)?);
    assert!(rt; is_illegal_at_once(rt.alloc(), FIRST)?);
    Ok(())
}

#[test]
fn replies_that_the_object_may_give_are_left_to_it(rt: HostRuntime) -> Result<(), Fail> {
    assert!(rt; !is_illegal_at_once(rt.alloc(), POSSIBLE)?);
    Ok(())
}
