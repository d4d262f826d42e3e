ghost use Rattle.std.specs.Prelude.{◌≡◌, ◌<◌, length, IfOk, IfSome, IsTrue};
ghost use Rattle.book_base.specs.Next.{HoldsAnswered};
ghost use Rattle.frontier_check.specs.Prefix.{IsBookCapacity, IsNext, IsPut};
ghost use Rattle.frontier_check.specs.Standing.{AreMarks};

use crate::choice::Choice;
use crate::guess::Guess;
use crate::kept_order::OrderMark;
use crate::prefix::{Prefix, answers_in};
use crate::walk::{MOST_CALLS, empty_state};
use book_base::{Book, Call, Cut, NoMemory, Place, SeqObject, State};
use std::alloc::Global;

/// Whether a cut holds all answered calls of a book.
pub fn holds_answered(book: &Book, cut: &Cut) -> bool
    requires { length cut.now ≡ length book.now }
    ensures { IsTrue result → HoldsAnswered book.now cut.now }
{
    for caller in 0..book.callers() {
        if cut.get(caller) < book.answers(caller) {
            return false;
        }
    }
    true
}

// The place of a caller's next call after a prefix, with the reply that the object gives, if the
// place may follow those of the prefix and the cut `limit` holds the call. The spare state has the
// list after the call.
fn next_place<S: SeqObject>(
    object: &S,
    book: &Book,
    prefix: &Prefix,
    spare: &mut State,
    limit: &Cut,
    caller: u32,
) -> Option<Place>
    requires put { IsPut (S.spec object.now) book.now prefix.now }
    requires limit { length limit.now ≡ length book.now }
    requires caller { caller < length book.now }
    requires room { IsBookCapacity (S.spec object.now) spare.old.room }
    ensures room { spare.new.room ≡ spare.old.room }
    ensures next { IfSome result (IsNext book.now prefix.now.cut) }
{
    let number = prefix.cut.get(caller);
    if number >= book.calls(caller) || number >= limit.get(caller) {
        return None;
    }
    spare.copy_from(&prefix.here);
    let reply = object.step(spare, book.op(Call { caller, number }));
    let place = Place {
        caller,
        number,
        reply,
    };
    if prefix.may_take(book, limit, place) {
        Some(place)
    } else {
        None
    }
}

// The least turns of calls that change the list of a prefix. A call that makes the list shorter has
// a turn below `PUT`. `PUT` is for a call that makes the list longer and whose word a take is known
// to take out; `KEPT` for any other answered call that makes it longer, where a guess goes by the
// takes; and `OTHER` for each other answered call that changes it.
const PUT: u64 = 1 << 32;

const KEPT: u64 = 2 << 32;

const OTHER: u64 = 3 << 32;

// The turn of the best choice where several have the turn `OTHER`: no guess says which of them
// comes first.
const UNSURE: u64 = 4 << 32;

// The turn of a caller's next call after a prefix, by the list after that call (`after`), by how
// many calls its view counts, and by how many the view of the take of its word counts. An
// unanswered call has a turn only where it makes the list longer and the take of its word is known.
fn turn_of(prefix: &Prefix, after: &State, guess: &Guess, caller: u32) -> Option<u64>
    requires counts { caller < length guess.now.counts }
    requires taken { caller < length guess.now.taken }
{
    let count = guess.counts.get(caller);
    let taken = guess.taken.get(caller);
    let puts = after.len() > prefix.here.len();
    if puts && taken < u64::MAX {
        Some(PUT.saturating_add(taken))
    } else if count == u64::MAX {
        None
    } else if puts && guess.guesses_by_takes() {
        Some(KEPT.saturating_add(count))
    } else if after.words() == prefix.here.words() {
        Some(0)
    } else if after.len() < prefix.here.len() {
        Some(count)
    } else {
        Some(OTHER)
    }
}

// A choice for a caller's next call after a prefix, if its place may follow those of the prefix,
// `view` holds the call, and the call has a turn.
fn choice_of<S: SeqObject>(
    object: &S,
    book: &Book,
    prefix: &Prefix,
    spare: &mut State,
    guess: &Guess,
    view: &Cut,
    caller: u32,
) -> Option<Choice>
    requires put { IsPut (S.spec object.now) book.now prefix.now }
    requires counts { length guess.now.counts ≡ length book.now }
    requires taken { length guess.now.taken ≡ length book.now }
    requires view { length view.now ≡ length book.now }
    requires caller { caller < length book.now }
    requires room { IsBookCapacity (S.spec object.now) spare.old.room }
    ensures room { spare.new.room ≡ spare.old.room }
    ensures next { IfSome result (λ choice. IsNext book.now prefix.now.cut choice.place) }
{
    let place = next_place(object, book, prefix, spare, view, caller)?;
    let turn = turn_of(prefix, spare, guess, caller)?;
    Some(Choice { turn, place })
}

// Of the callers' next calls after a prefix that `view` holds, the best choice, if any of these
// calls has a choice.
fn best_choice<S: SeqObject>(
    object: &S,
    book: &Book,
    prefix: &Prefix,
    spare: &mut State,
    guess: &Guess,
    view: &Cut,
) -> Option<Choice>
    requires put { IsPut (S.spec object.now) book.now prefix.now }
    requires counts { length guess.now.counts ≡ length book.now }
    requires taken { length guess.now.taken ≡ length book.now }
    requires view { length view.now ≡ length book.now }
    requires room { IsBookCapacity (S.spec object.now) spare.old.room }
    ensures room { spare.new.room ≡ spare.old.room }
    ensures next { IfSome result (λ choice. IsNext book.now prefix.now.cut choice.place) }
{
    let mut best: Option<Choice> = None;
    for caller in 0..book.callers() {
        if prefix.cut.get(caller) < view.get(caller) {
            let found = choice_of(object, book, prefix, spare, guess, view, caller);
            best = better_of(book, &prefix.cut, best, found);
        }
    }
    best
}

// The better one of two choices after a cut: the one with the lesser turn, `found` where their
// turns are equal, and where one is missing the other one. Where `found` is the better one of two
// and has the turn `OTHER`, its turn becomes `UNSURE`.
fn better_of(
    _book: &Book,
    _cut: &Cut,
    best: Option<Choice>,
    found: Option<Choice>,
) -> Option<Choice>
    requires best { IfSome best (λ choice. IsNext _book.now _cut.now choice.place) }
    requires found { IfSome found (λ choice. IsNext _book.now _cut.now choice.place) }
    ensures { IfSome result (λ choice. IsNext _book.now _cut.now choice.place) }
{
    let Some(choice) = found else {
        return best;
    };
    let Some(other) = best else {
        return Some(choice);
    };
    if other.turn < choice.turn {
        return Some(other);
    }
    let turn = if choice.turn == OTHER {
        UNSURE
    } else {
        choice.turn
    };
    Some(Choice {
        turn,
        place: choice.place,
    })
}

// The place of some caller's unanswered next call after a prefix, if `view` holds the call and
// after it the object gives the recorded reply of another caller's next call, which `view` holds
// too. `None` comes where no caller's next call is of this kind.
fn enabling_place<S: SeqObject>(
    object: &S,
    book: &Book,
    prefix: &Prefix,
    spare: &mut State,
    view: &Cut,
) -> Option<Place>
    requires put { IsPut (S.spec object.now) book.now prefix.now }
    requires view { length view.now ≡ length book.now }
    requires room { IsBookCapacity (S.spec object.now) spare.old.room }
    ensures room { spare.new.room ≡ spare.old.room }
    ensures next { IfSome result (IsNext book.now prefix.now.cut) }
{
    for caller in 0..book.callers() {
        if prefix.cut.get(caller) >= book.answers(caller)
            && let Some(place) = next_place(object, book, prefix, spare, view, caller)
            && enables_recorded_reply(object, book, prefix, spare, view, place)
        {
            return Some(place);
        }
    }
    None
}

// Whether, once a place is put after a prefix, the object gives the recorded reply of some caller's
// next call, which is answered and held by `view`. The answer is `false` where the prefix lacks
// fewer than two of the most calls that a book may have.
fn enables_recorded_reply<S: SeqObject>(
    object: &S,
    book: &Book,
    prefix: &Prefix,
    spare: &mut State,
    view: &Cut,
    place: Place,
) -> bool
    requires put { IsPut (S.spec object.now) book.now prefix.now }
    requires view { length view.now ≡ length book.now }
    requires next { IsNext book.now prefix.now.cut place }
    requires room { IsBookCapacity (S.spec object.now) spare.old.room }
    ensures room { spare.new.room ≡ spare.old.room }
{
    if prefix.places.len() as u64 + 2 > MOST_CALLS {
        return false;
    }
    let op = book.op(Call {
        caller: place.caller,
        number: place.number,
    });
    for other in 0..book.callers() {
        let number = prefix.cut.get(other);
        if number < view.get(other) && number < book.answers(other) {
            let call = Call {
                caller: other,
                number,
            };
            spare.copy_from(&prefix.here);
            let _reply = object.step(spare, op);
            if object.step(spare, book.op(call)) == book.reply(call) {
                return true;
            }
        }
    }
    false
}

// The place to put next after a prefix, as far as one is guessed: that of the best choice, or,
// where no call has a choice, that of an unanswered call after which an answered one has its
// recorded reply. `None` comes where no next call is answered, where the best choice is `UNSURE`,
// and where no such unanswered call is found: then a search looks.
fn place_after<S: SeqObject>(
    object: &S,
    book: &Book,
    prefix: &Prefix,
    spare: &mut State,
    guess: &Guess,
) -> Option<Place>
    requires put { IsPut (S.spec object.now) book.now prefix.now }
    requires counts { length guess.now.counts ≡ length book.now }
    requires taken { length guess.now.taken ≡ length book.now }
    requires room { IsBookCapacity (S.spec object.now) spare.old.room }
    ensures room { spare.new.room ≡ spare.old.room }
    ensures next { IfSome result (IsNext book.now prefix.now.cut) }
{
    let first = guess.first();
    let number = prefix.cut.get(first);
    if number >= book.answers(first) {
        return None;
    }
    let view = book.view(Call {
        caller: first,
        number,
    });
    match best_choice(object, book, prefix, spare, guess, view) {
        Some(choice) if choice.turn < UNSURE => Some(choice.place),
        Some(_) => None,
        None => enabling_place(object, book, prefix, spare, view),
    }
}

/// How many calls of a book a cut lacks. No clause says so: the number only decides how long a
/// search takes.
pub fn calls_after(book: &Book, cut: &Cut) -> u64
    requires { length cut.now ≡ length book.now }
{
    let mut left: u64 = 0;
    for caller in 0..book.callers() {
        left = left.saturating_add(book.calls(caller).saturating_sub(cut.get(caller)));
    }
    left
}

/// Puts places after those of a prefix, as long as the next one is guessed, and leaves a mark
/// wherever the number of places is a multiple of `INTERVAL`. Answers whether the object gave the
/// reply of each place that was put. No clause says how many places are put.
pub fn put_fresh<S: SeqObject>(
    alloc: Global,
    object: &S,
    book: &Book,
    prefix: &mut Prefix,
    marks: &mut Vec<OrderMark>,
) -> Result<bool, NoMemory>
    requires put { IsPut (S.spec object.now) book.now prefix.old }
    requires room { IsBookCapacity (S.spec object.now) prefix.old.here.room }
    requires marks { AreMarks (S.spec object.now) book.now prefix.old.places.items 0
        marks.old.items }
    ensures put { IfOk result
        (λ given. IsTrue given → IsPut (S.spec object.now) book.now prefix.new) }
    ensures marks { IfOk result (λ given. IsTrue given
        → AreMarks (S.spec object.now) book.now prefix.new.places.items 0 marks.new.items) }
{
    let answered = answers_in(book);
    let mut spare = empty_state(alloc, object)?;
    let mut guess = Guess::new(alloc, object, book, &prefix.cut, &mut spare)?;
    for _ in 0..calls_after(book, &prefix.cut) {
        let Some(place) = place_after(object, book, prefix, &mut spare, &guess) else {
            return Ok(true);
        };
        if !prefix.put(object, book, place)? {
            return Ok(false);
        }
        guess.look(object, book, &prefix.cut, &mut spare, place.caller);
        prefix.mark_at_interval(alloc, &answered, marks)?;
    }
    Ok(true)
}
