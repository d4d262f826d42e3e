ghost use Rattle.std.specs.Prelude.{◌≡◌, ◌<◌, length, IfOk};
ghost use Rattle.frontier_check.specs.Prefix.{IsBookCapacity};

use crate::call_turns::total;
use crate::takes::Takes;
use book_base::{Book, Call, Cut, NoMemory, SeqObject, State};
use std::alloc::Global;

/// What a guess of the next call after a cut goes by. `counts` has for each caller how many calls
/// the view of its next call counts. `taken` is about the callers whose next calls put words in: it
/// has for each such caller how many calls are counted by the view of the take of this word.
///
/// A number that isn't known is `u64::MAX`. No clause says what the numbers are: they only decide
/// how long a search takes.
#[derive(Drop)]
pub struct Guess {
    pub counts: Cut,
    pub taken: Cut,
    takes: Takes,
}

impl Guess {
    /// What a guess goes by after the cut `cut`.
    pub fn new<S: SeqObject>(
        alloc: Global,
        object: &S,
        book: &Book,
        cut: &Cut,
        spare: &mut State,
    ) -> Result<Guess, NoMemory>
        requires cut { length cut.now ≡ length book.now }
        requires room { IsBookCapacity (S.spec object.now) spare.old.room }
        ensures room { spare.new.room ≡ spare.old.room }
        ensures counts { IfOk result (λ guess. length guess.counts ≡ length book.now) }
        ensures taken { IfOk result (λ guess. length guess.taken ≡ length book.now) }
    {
        let mut guess = Guess {
            counts: *cut,
            taken: *cut,
            takes: Takes::of(alloc, object, book, cut, spare)?,
        };
        for caller in 0..book.callers() {
            guess.look(object, book, cut, spare, caller);
        }
        Ok(guess)
    }

    /// Sets the numbers of `caller` that a guess goes by to those of its next call after the cut
    /// `cut`.
    pub fn look<S: SeqObject>(
        &mut self,
        object: &S,
        book: &Book,
        cut: &Cut,
        spare: &mut State,
        caller: u32,
    )
        requires cut { length cut.now ≡ length book.now }
        requires caller { caller < length book.now }
        requires counts { length self.old.counts ≡ length book.now }
        requires taken { length self.old.taken ≡ length book.now }
        requires room { IsBookCapacity (S.spec object.now) spare.old.room }
        ensures room { spare.new.room ≡ spare.old.room }
        ensures counts { length self.new.counts ≡ length book.now }
        ensures taken { length self.new.taken ≡ length book.now }
    {
        let number = cut.get(caller);
        self.takes.pass(cut);
        self.counts.set(caller, count_of(book, caller, number));
        let taken = if number < book.calls(caller) {
            self.takes
                .count_for(object, book, cut, spare, Call { caller, number })
        } else {
            u64::MAX
        };
        self.taken.set(caller, taken);
    }

    /// Whether the turn of a call that puts a word in is guessed by the view of the take of this
    /// word.
    pub fn guesses_by_takes(&self) -> bool {
        !self.takes.differ
    }

    /// The caller whose next call after the cut has a view that counts the fewest calls, where any
    /// of these calls is answered, and else caller 0.
    pub fn first(&self) -> u32
        ensures { result < length self.now.counts }
    {
        let mut least = 0;
        for caller in 1..self.counts.n() {
            if self.counts.get(caller) < self.counts.get(least) {
                least = caller;
            }
        }
        least
    }
}

// How many calls the view of a caller's call with the number `number` counts, and `u64::MAX` where
// that call isn't answered.
fn count_of(book: &Book, caller: u32, number: u64) -> u64
    requires { caller < length book.now }
{
    if number < book.answers(caller) {
        total(book.view(Call { caller, number })) as u64
    } else {
        u64::MAX
    }
}
