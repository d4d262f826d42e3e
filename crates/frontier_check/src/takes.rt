ghost use Rattle.std.specs.Prelude.{◌≡◌, ◌<◌, length};
ghost use Rattle.book_base.specs.Book.{IsCall};
ghost use Rattle.frontier_check.specs.Prefix.{IsBookCapacity};

use crate::call_turns::total;
use book_base::{Book, Call, Cut, NoMemory, OpWord, SeqObject, State};
use std::alloc::Global;

// A take: an answered call that may take a word out, its recorded reply, and how many calls its
// view counts.
#[derive(Clone, Copy, Drop)]
struct Take {
    call: Call,
    reply: u64,
    count: u64,
}

/// The takes after a cut, the one whose view counts the fewest calls first; `passed` is how many of
/// the first ones a later cut holds. `op` is the operation of all takes; `put` and `other` are two
/// different operations of other calls, which may put words in. `differ` says that no guess goes by
/// the takes, since they have several operations, or don't take out first what was put in first.
///
/// No clause says what the takes are: they only decide how long a search takes.
#[derive(Drop)]
pub struct Takes {
    takes: Vec<Take>,
    passed: usize,
    op: Option<OpWord>,
    put: Option<OpWord>,
    other: Option<OpWord>,
    pub differ: bool,
}

impl Takes {
    /// The takes among the answered calls of a book that a cut lacks.
    pub fn of<S: SeqObject>(
        alloc: Global,
        object: &S,
        book: &Book,
        cut: &Cut,
        spare: &mut State,
    ) -> Result<Takes, NoMemory>
        requires wide { length cut.now ≡ length book.now }
        requires room { IsBookCapacity (S.spec object.now) spare.old.room }
        ensures room { spare.new.room ≡ spare.old.room }
    {
        let mut takes = Takes {
            takes: Vec::new(alloc),
            passed: 0,
            op: None,
            put: None,
            other: None,
            differ: false,
        };
        for caller in 0..book.callers() {
            takes.list_caller(object, book, caller, cut.get(caller), spare)?;
        }
        takes.differ = takes.differ || !takes.is_queue(object, spare);
        takes.takes.sort_by_key(|take| take.count)?;
        Ok(takes)
    }

    // Lists the takes of a caller, from the call with the number `first` on, up to the first one
    // that has another operation than those before it. Of the caller's other answered calls, the
    // operations are kept as `list_put` says.
    fn list_caller<S: SeqObject>(
        &mut self,
        object: &S,
        book: &Book,
        caller: u32,
        first: u64,
        spare: &mut State,
    ) -> Result<(), NoMemory>
        requires caller { caller < length book.now }
        requires room { IsBookCapacity (S.spec object.now) spare.old.room }
        ensures room { spare.new.room ≡ spare.old.room }
    {
        let answers = book.answers(caller).min(book.calls(caller));
        for number in first..answers {
            let call = Call { caller, number };
            let op = book.op(call);
            if self.op != Some(op) && !may_take(object, spare, op) {
                self.list_put(op);
            } else if !self.differ {
                self.differ = self.op.unwrap_or(op) != op;
                self.op = Some(op);
                self.takes.push(Take {
                    call,
                    reply: book.reply(call),
                    count: total(book.view(call)) as u64,
                })?;
            }
        }
        Ok(())
    }

    // Keeps an operation that may put a word in: the first one as `put`, and of those that differ
    // from it the last one as `other`.
    fn list_put(&mut self, op: OpWord) {
        if self.put.unwrap_or(op) == op {
            self.put = Some(op);
        } else {
            self.other = Some(op);
        }
    }

    // Whether the takes take out first what was put in first, when the operations `put` and `other`
    // put two words in, in either order. `true` is answered too where no take is kept, or fewer
    // than two operations that may put a word in.
    fn is_queue<S: SeqObject>(&self, object: &S, spare: &mut State) -> bool
        requires { IsBookCapacity (S.spec object.now) spare.old.room }
        ensures { spare.new.room ≡ spare.old.room }
    {
        let (Some(take), Some(put), Some(other)) = (self.op, self.put, self.other) else {
            return true;
        };
        is_first_out(object, spare, put, other, take)
            && is_first_out(object, spare, other, put, take)
    }

    /// Passes over the first takes that a cut holds, up to the first take that it lacks.
    pub fn pass(&mut self, cut: &Cut) {
        let mut passed = self.passed;
        for at in passed..self.takes.len() {
            if !is_in(cut, self.takes[at].call) {
                break;
            }
            passed = at + 1;
        }
        self.passed = passed;
    }

    /// How many calls are counted by the view of the take of the word that `call` puts in. That
    /// take is the first one outside the cut whose reply shows this word. Where there is none, or
    /// no guess goes by the takes, the answer is `u64::MAX`.
    pub fn count_for<S: SeqObject>(
        &self,
        object: &S,
        book: &Book,
        cut: &Cut,
        spare: &mut State,
        call: Call,
    ) -> u64
        requires call { IsCall book.now call }
        requires room { IsBookCapacity (S.spec object.now) spare.old.room }
        ensures room { spare.new.room ≡ spare.old.room }
    {
        let put = book.op(call);
        let Some(take) = self.op else {
            return u64::MAX;
        };
        if self.differ || put == take {
            return u64::MAX;
        }
        let Some(reply) = reply_of_take(object, spare, put, take) else {
            return u64::MAX;
        };
        for at in self.passed..self.takes.len() {
            let Take {
                call,
                reply: shown,
                count,
            } = self.takes[at];
            if shown == reply && !is_in(cut, call) {
                return count;
            }
        }
        u64::MAX
    }
}

// Whether a cut holds a call; it holds none of a caller for which it has no count.
fn is_in(cut: &Cut, call: Call) -> bool {
    call.caller < cut.n() && cut.holds(call.caller, call.number)
}

// Whether an operation doesn't make the object's first list longer.
fn may_take<S: SeqObject>(object: &S, spare: &mut State, op: OpWord) -> bool
    requires { IsBookCapacity (S.spec object.now) spare.old.room }
    ensures { spare.new.room ≡ spare.old.room }
{
    object.reset(spare);
    let before = spare.len();
    let _reply = object.step(spare, op);
    spare.len() <= before
}

// The reply of `take` at the list that `put` makes of the object's first list; `None` unless that
// list has one word and `take` makes it empty.
fn reply_of_take<S: SeqObject>(
    object: &S,
    spare: &mut State,
    put: OpWord,
    take: OpWord,
) -> Option<u64>
    requires { IsBookCapacity (S.spec object.now) spare.old.room }
    ensures { spare.new.room ≡ spare.old.room }
{
    object.reset(spare);
    let _put = object.step(spare, put);
    if spare.len() != 1 {
        return None;
    }
    let reply = object.step(spare, take);
    if spare.is_empty() { Some(reply) } else { None }
}

// Whether `take` has the same reply at the list after `first` and then `second` as at the list
// after `first` alone, where it takes out the only word.
fn is_first_out<S: SeqObject>(
    object: &S,
    spare: &mut State,
    first: OpWord,
    second: OpWord,
    take: OpWord,
) -> bool
    requires { IsBookCapacity (S.spec object.now) spare.old.room }
    ensures { spare.new.room ≡ spare.old.room }
{
    let Some(shown) = reply_of_take(object, spare, first, take) else {
        return false;
    };
    object.reset(spare);
    let _first = object.step(spare, first);
    let _second = object.step(spare, second);
    object.step(spare, take) == shown
}
