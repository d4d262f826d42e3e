//! The calls of a book after a prefix, as a book of their own, which the object may decide where a
//! search doesn't soon find an order.
ghost use Rattle.std.specs.Prelude.{◌≡◌, length};
ghost use Rattle.frontier_check.specs.Prefix.{IsBookCapacity};

use crate::prefix::Prefix;
use crate::walk::{MOST_CALLS, empty_state};
use book_base::{Book, BookFault, Call, Cut, NoMemory, OpWord, Place, SeqObject, State};
use search_hints::{Decision, SearchHints};
use std::alloc::Global;

/// The places of the order that the object finds for the calls after a prefix, if it decides that
/// there is one.
///
/// The object is asked about a book of those calls alone, in which caller 0 first makes calls that
/// lead to the prefix's list. No clause says that the places follow those of the prefix, so the
/// caller of this function has to put them one by one.
pub fn decided_after<S: SearchHints>(
    alloc: Global,
    object: &S,
    book: &Book,
    prefix: &Prefix,
) -> Result<Option<Vec<Place>>, NoMemory>
    requires { length prefix.now.cut ≡ length book.now }
{
    let puts = puts_of(alloc, object, book, prefix)?;
    let mut left = Book::new(alloc, book.callers())?;
    if !add_puts(alloc, object, prefix.here.words(), &puts, &mut left)? {
        return Ok(None);
    }
    let before = puts.len() as u64;
    if !add_calls(book, &prefix.cut, &mut left)? {
        return Ok(None);
    }
    if !add_answers(book, &prefix.cut, before, &mut left)? {
        return Ok(None);
    }
    match object.decide(alloc, &left)? {
        Decision::Order(order) => Ok(Some(places_after(alloc, &prefix.cut, before, &order)?)),
        Decision::NoOrder | Decision::Unsaid => Ok(None),
    }
}

// Operations of a prefix's places that put in the words of the prefix's list, the last word first.
// Each of them turns the object's first list into the list of its word alone. They are fewer than
// the words where no place is found for a word.
fn puts_of<S: SeqObject>(
    alloc: Global,
    object: &S,
    book: &Book,
    prefix: &Prefix,
) -> Result<Vec<OpWord>, NoMemory> {
    let mut spare = empty_state(alloc, object)?;
    let mut wanted = Vec::from_slice(alloc, prefix.here.words())?;
    let mut puts = Vec::new(alloc);
    for back in 0..prefix.places.len() {
        let Some(word) = wanted.last().copied() else {
            return Ok(puts);
        };
        let place = prefix.places[prefix.places.len() - 1 - back];
        if let Some(op) = put_at(object, book, &mut spare, place, word) {
            puts.push(op)?;
            wanted.pop();
        }
    }
    Ok(puts)
}

// The operation of the call at a place, if the book has this call.
fn operation_at(book: &Book, place: Place) -> Option<OpWord> {
    let Place {
        caller,
        number,
        reply: _,
    } = place;
    if caller < book.callers() && number < book.calls(caller) {
        Some(book.op(Call { caller, number }))
    } else {
        None
    }
}

// The operation of the call at a place, if it turns the object's first list into the list of `word`
// alone.
fn put_at<S: SeqObject>(
    object: &S,
    book: &Book,
    spare: &mut State,
    place: Place,
    word: u64,
) -> Option<OpWord>
    requires { IsBookCapacity (S.spec object.now) spare.old.room }
    ensures { spare.new.room ≡ spare.old.room }
{
    let op = operation_at(book, place)?;
    object.reset(spare);
    let _reply = object.step(spare, op);
    if spare.len() == 1 && spare.get(0) == word {
        Some(op)
    } else {
        None
    }
}

// Adds answered calls of caller 0 to a book without calls, with the operations `puts`, the last one
// first. Each has the reply that the object gives, and a view that holds caller 0's calls up to it.
// Answers whether the book takes them all and they lead to the list `words`.
fn add_puts<S: SeqObject>(
    alloc: Global,
    object: &S,
    words: &[u64],
    puts: &[OpWord],
    left: &mut Book,
) -> Result<bool, NoMemory> {
    if puts.len() as u64 > MOST_CALLS {
        return Ok(false);
    }
    let mut here = empty_state(alloc, object)?;
    object.reset(&mut here);
    for back in 0..puts.len() {
        let op = puts[puts.len() - 1 - back];
        let reply = object.step(&mut here, op);
        let view = view_of_first(left, back as u64);
        if !add_call(left, 0, op)? || !add_answer(left, 0, reply, view)? {
            return Ok(false);
        }
    }
    Ok(here.words() == words)
}

// A view that holds the calls of caller 0 up to the one with the number `number`, and no others.
fn view_of_first(left: &Book, number: u64) -> Cut {
    let mut view = Cut::zero(left.callers());
    // This call is for its contract, by which there is a caller 0.
    let _callers = view.n();
    view.set(0, number.saturating_add(1));
    view
}

// Adds those calls of `book` that a cut lacks to the smaller book `left`, as unanswered calls.
// Answers whether `left` takes them all.
fn add_calls(book: &Book, cut: &Cut, left: &mut Book) -> Result<bool, NoMemory>
    requires { length cut.now ≡ length book.now }
{
    for caller in 0..book.callers() {
        for number in cut.get(caller)..book.calls(caller) {
            if !add_call(left, caller, book.op(Call { caller, number }))? {
                return Ok(false);
            }
        }
    }
    Ok(true)
}

// Adds the answers of those calls of `book` that a cut lacks to the smaller book `left`, in which
// caller 0 has `before` other calls first. Answers whether `left` takes them all.
fn add_answers(book: &Book, cut: &Cut, before: u64, left: &mut Book) -> Result<bool, NoMemory>
    requires { length cut.now ≡ length book.now }
{
    for caller in 0..book.callers() {
        for number in cut.get(caller)..book.answers(caller) {
            let call = Call { caller, number };
            let view = view_after(book.view(call), cut, before);
            if !add_answer(left, caller, book.reply(call), view)? {
                return Ok(false);
            }
        }
    }
    Ok(true)
}

// The view that counts of each caller those calls of `view` that a cut lacks, and of caller 0
// `before` calls more.
fn view_after(view: &Cut, cut: &Cut, before: u64) -> Cut
    requires { length view.now ≡ length cut.now }
{
    let mut after = *view;
    for caller in 0..cut.n() {
        let count = view.get(caller).saturating_sub(cut.get(caller));
        let first = if caller == 0 { before } else { 0 };
        after.set(caller, count.saturating_add(first));
    }
    after
}

// Adds an unanswered call of a caller to a book. Answers whether the book has the caller and takes
// the call.
fn add_call(left: &mut Book, caller: u32, op: OpWord) -> Result<bool, NoMemory> {
    if caller >= left.callers() {
        return Ok(false);
    }
    is_taken(left.add_call(caller, op))
}

// Adds an answer of a caller to a book. Answers whether the book has the caller and takes the
// answer.
fn add_answer(left: &mut Book, caller: u32, reply: u64, view: Cut) -> Result<bool, NoMemory> {
    if caller >= left.callers() || view.n() != left.callers() {
        return Ok(false);
    }
    is_taken(left.add_answer(caller, reply, view))
}

// Whether a book took what was added.
fn is_taken(added: Result<(), BookFault>) -> Result<bool, NoMemory> {
    match added {
        Ok(()) => Ok(true),
        Err(BookFault::NoMemory) => Err(NoMemory),
        Err(_) => Ok(false),
    }
}

// The places of an order of the smaller book without those of caller 0's first `before` calls. Each
// has the number that its call has in the whole book.
fn places_after(
    alloc: Global,
    cut: &Cut,
    before: u64,
    order: &[Place],
) -> Result<Vec<Place>, NoMemory> {
    let mut places = Vec::with_capacity(alloc, order.len())?;
    for place in order {
        let Place {
            caller,
            number,
            reply,
        } = *place;
        let first = if caller == 0 { before } else { 0 };
        if caller < cut.n() && number >= first {
            places.push(Place {
                caller,
                number: (number - first).saturating_add(cut.get(caller)),
                reply,
            })?;
        }
    }
    Ok(places)
}
