//! Books of an object of one's own, whose list isn't empty at first.
ghost use Rattle.std.specs.Prelude.{[], ◌∷◌};
ghost use Rattle.seq_objects.specs.declared.kind.Kind.TheVariants as kinds;
ghost use Rattle.seq_objects.specs.Objects.{kind_next, kind_next-unknown};
ghost use Rattle.seq_objects.specs.Words.{is_known_word};

use book_base::{OpWord, SeqObject, State};
use book_text::read_book;
use frontier_check::{Verdict, check};
use search_hints::SearchHints;
use seq_objects::Kind;
use std::alloc::Global;
use std::test::Fail;

// The dequeues get the first two items that the queue has at first, after an enqueue.
const IN_ORDER: &[u8] =
    b"book 2\nobject queue\ncallers 2\ncalls 1 2\n0 0 enq 9 done view 0:1 1:1\n1 0 deq =5 view 0:1 1:1\n1 1 deq =6 view 0:1 1:2\nend\n";

// The second dequeue gets the item that is enqueued, before all items that the queue has at first.
const TOO_EARLY: &[u8] =
    b"book 2\nobject queue\ncallers 2\ncalls 1 2\n0 0 enq 9 done view 0:1 1:1\n1 0 deq =5 view 0:1 1:1\n1 1 deq =9 view 0:1 1:2\nend\n";

// A queue that has the items 5, 6 and 7 at first.
struct FilledQueue;

impl SeqObject for FilledQueue {
    ghost is_known = { λ _. is_known_word kinds.Queue };

    ghost spec = { λ _. record { init = 5 ∷ 6 ∷ 7 ∷ []; next = kind_next kinds.Queue } };

    ghost unknown_is_bad = { λ _. kind_next-unknown kinds.Queue };

    fn known(&self, op: OpWord) -> bool {
        Kind::Queue.known(op)
    }

    fn capacity(&self, operations: u64) -> u64 {
        operations + 3
    }

    fn reset(&self, state: &mut State) {
        state.clear();
        state.push(5);
        state.push(6);
        state.push(7);
    }

    fn step(&self, state: &mut State, op: OpWord) -> u64 {
        Kind::Queue.step(state, op)
    }
}

impl SearchHints for FilledQueue {}

// Whether the book with this text is legal for the filled queue.
fn is_legal(alloc: Global, text: &[u8]) -> Result<bool, Fail> {
    let (_kind, book) = read_book(alloc, text)?;
    Ok(matches!(check(alloc, &FilledQueue, &book)?, Verdict::Legal(_)))
}

#[test]
fn an_object_may_have_items_at_first(rt: HostRuntime) -> Result<(), Fail> {
    assert!(rt; is_legal(rt.alloc(), IN_ORDER)?);
    assert!(rt; !is_legal(rt.alloc(), TOO_EARLY)?);
    Ok(())
}
