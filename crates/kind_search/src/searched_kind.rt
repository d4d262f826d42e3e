ghost use Rattle.std.specs.Prelude.{◌≡◌, length};
ghost use Rattle.book_base.specs.Pruning.{HasOneOpen, IsForced, IsReached};
ghost use Rattle.search_hints.specs.Marks.{IsMarkedWithin, MarksAllNext, MarksSuffice};
ghost use Rattle.seq_objects.specs.Objects.{kind_next, kind_spec, kind_next-unknown};
ghost use Rattle.seq_objects.specs.Words.{is_known_word};
ghost use Rattle.kind_search.specs.RegisterReading.{held_in};
ghost use Rattle.kind_search.specs.Seen.{kind_sees, IsNarrowedByKind};

use crate::keyed::{MapKeys, SetKeys, empty_sight, narrow_to_key};
use crate::readers::{PqueueReader, QueueReader, RegisterReader, StackReader};
use book_base::{Book, Cut, NoMemory, OpWord, SeqObject, State};
use list_pruning::{narrow_holds_last, narrow_last_first, narrow_least_first, sight_of_values};
use queue_refutation::decide_queue;
use search_hints::{Decision, MarkedCallers, SearchHints, Sight};
use seq_objects::Kind;
use stack_levels::decide_stack;
use std::alloc::Global;

/// How many values a register can have: those below 2^32.
const VALUES: u64 = 1 << 32;

/// A kind of sequential object, with what a search is told of its books.
#[derive(Clone, Copy, Debug, PartialEq, Eq)]
pub struct SearchedKind {
    pub kind: Kind,
}

impl SeqObject for SearchedKind {
    ghost is_known = { λ object. is_known_word object.kind };

    ghost spec = { λ object. kind_spec object.kind };

    ghost unknown_is_bad = { λ object. kind_next-unknown object.kind };

    fn known(&self, op: OpWord) -> bool {
        self.kind.known(op)
    }

    fn capacity(&self, operations: u64) -> u64 {
        self.kind.capacity(operations)
    }

    fn reset(&self, state: &mut State) {
        self.kind.reset(state);
    }

    fn step(&self, state: &mut State, op: OpWord) -> u64 {
        self.kind.step(state, op)
    }

    fn leaves(&self, op: OpWord, reply: u64) -> bool {
        self.kind.leaves(op, reply)
    }

    fn may_reply(&self, op: OpWord, reply: u64) -> bool {
        self.kind.may_reply(op, reply)
    }
}

impl SearchHints for SearchedKind {
    ghost sees = { λ object. kind_sees object.kind };

    fn prepare(&self, alloc: Global, book: &Book) -> Result<Option<Sight>, NoMemory> {
        match self.kind {
            Kind::Stack => Ok(Some(sight_of_values(alloc, &StackReader, book)?)),
            Kind::Register => Ok(Some(sight_of_values(alloc, &RegisterReader, book)?)),
            Kind::Pqueue => Ok(Some(sight_of_values(alloc, &PqueueReader, book)?)),
            Kind::IntSet | Kind::Map => Ok(Some(empty_sight(alloc))),
            Kind::Queue | Kind::Counter | Kind::CasRegister => Ok(None),
        }
    }

    /// Narrows the marked callers by what the kind knows. Those of a set and a map are narrowed to
    /// the callers whose next calls have the forced call's key, where it has one.
    fn narrow(
        &self,
        sight: &Sight,
        book: &Book,
        cut: &Cut,
        words: &[u64],
        forced: u32,
        marks: MarkedCallers,
    ) -> MarkedCallers
        // The sight says of the book what the kind's sights say.
        requires sight { kind_sees self.now.kind book.now sight.now }
        // Each view of the book holds at most one unanswered call of each caller.
        requires open { HasOneOpen book.now }
        // The cut has a count for each caller of the book.
        requires wide { length cut.now ≡ length book.now }
        // Some order reaches the cut and the list, and whatever places continue it make a legal
        // order with it.
        requires reached { IsReached (kind_spec self.now.kind) book.now cut.now words.now }
        // Of all answered calls outside the cut the forced caller's first one has the least view.
        requires forced { IsForced book.now cut.now forced }
        // Exactly those callers are marked whose next calls after the cut may come next.
        requires marks { MarksAllNext book.now cut.now marks }
        // Each caller that the answer marks was marked.
        ensures fewer { IsMarkedWithin result marks }
        // Where places continue an order from the cut and the list, as many or fewer that begin
        // with the next call of a caller that the answer marks do too.
        ensures suffice { MarksSuffice book.now (kind_next self.now.kind) cut.now words.now result }
        // For sets and maps: where the forced caller's next call has a key, exactly the marked
        // callers whose next calls have this key keep their marks; else all marked callers do.
        ensures narrowed { IsNarrowedByKind self.now.kind book.now cut.now forced marks result }
    {
        match self.kind {
            Kind::Stack => narrow_last_first(&StackReader, sight, book, cut, words, forced, marks),
            Kind::Register => {
                narrow_holds_last(
                    &RegisterReader,
                    sight,
                    book,
                    cut,
                    held_in(words),
                    forced,
                    marks,
                )
            }
            Kind::IntSet => narrow_to_key(&SetKeys, book, cut, forced, marks),
            Kind::Pqueue => {
                narrow_least_first(&PqueueReader, sight, book, cut, words, forced, marks)
            }
            Kind::Map => narrow_to_key(&MapKeys, book, cut, forced, marks),
            Kind::Queue | Kind::Counter | Kind::CasRegister => marks,
        }
    }

    /// Decides a whole book without a search of orders, where it can: a queue's book by pairs of
    /// puts and takes, and a stack's by levels. The answer is `Unsaid` where this decides nothing,
    /// and for each book of another kind.
    fn decide(&self, alloc: Global, book: &Book) -> Result<Decision, NoMemory> {
        match self.kind {
            Kind::Queue => decide_queue(alloc, &self.kind, &QueueReader, book),
            Kind::Stack => decide_stack(alloc, &self.kind, &StackReader, book),
            Kind::Register
            | Kind::Counter
            | Kind::IntSet
            | Kind::Pqueue
            | Kind::CasRegister
            | Kind::Map => Ok(Decision::Unsaid),
        }
    }
}

/// The value that a register's list holds: the low 32 bits of its first word, or 0 where the list
/// is empty.
fn held_in(words: &[u64]) -> u64
    ensures { result ≡ held_in words.now }
{
    match words.first() {
        Some(word) => *word % VALUES,
        None => 0,
    }
}
