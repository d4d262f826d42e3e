ghost use Rattle.std.specs.Prelude.{◌≡◌, ℕ, ◌+◌, ◌<◌, ◌≤◌, ◌⊎◌, length, slice_index_or, IfSome, IsFalse, IsTrue, OnOk, Some};
ghost use Rattle.std.specs.List.{AllByRecursion};
ghost use Rattle.book_base.specs.Book.{IsCall, IsValid, operation_of};
ghost use Rattle.book_base.specs.Order.{call_at};
ghost use Rattle.book_base.specs.Pruning.{HasOneOpen};
ghost use Rattle.frontier_check.specs.Search.{places_of};
ghost use Rattle.frontier_check.specs.Twin.{HasOperationOf, ServesFor, IsKeptOf, IsAdded, IsExchanged};
ghost use Rattle.frontier_check.specs.declared.choice.Choice.{Choice};

use crate::choice::Choice;
use book_base::{Book, Call, NoMemory, Place};

/// Adds the choice `new` to `choices`, which are in the order of their turns, the least turn last.
/// In a book with one open, where another choice has the same operation, only one of the two is
/// kept: the one whose call serves for that of the other, with the lesser turn of both. No clause
/// says that this other choice is found: where it isn't, the search only tries more.
pub fn choose(
    book: &Book,
    one_open: bool,
    choices: &mut Vec<Choice>,
    new: Choice,
) -> Result<(), NoMemory>
    requires valid { IsValid book.now }
    requires open { IsTrue one_open → HasOneOpen book.now }
    requires call { IsCall book.now (call_at new.place) }
    requires calls { AllByRecursion (λ place. IsCall book.now (call_at place))
        (places_of choices.old.items) }
    ensures chosen { OnOk result (IsAdded choices.old.items new choices.new.items
        ⊎ IsExchanged book.now choices.old.items new choices.new.items) }
    ensures few { length choices.new.items ≤ length choices.old.items + 1 }
{
    let Some(index) = twin_of(book, one_open, choices, new) else {
        return add(choices, new);
    };
    let twin = choices.remove(index);
    add(choices, kept_of(book, twin, new))
}

// The index of the first choice that has the operation of the choice `new`, if the book is known to
// have one open and there is such a choice.
fn twin_of(book: &Book, one_open: bool, choices: &[Choice], new: Choice) -> Option<usize>
    requires open { IsTrue one_open → HasOneOpen book.now }
    requires call { IsCall book.now (call_at new.place) }
    requires calls { AllByRecursion (λ place. IsCall book.now (call_at place))
        (places_of choices.now) }
    ensures open { IfSome result (λ _. HasOneOpen book.now) }
    ensures index { IfSome result (λ k. k < length choices.now) }
    ensures twin { IfSome result (λ k. (twin : Choice) → twin ≡ slice_index_or choices.now k twin
        → HasOperationOf book.now new.place twin.place) }
{
    if !one_open {
        return None;
    }
    let op = book.op(call_of(new.place));
    for index in 0..choices.len() {
        if book.op(call_of(choices[index].place)) == op {
            return Some(index);
        }
    }
    None
}

// Of two choices with one operation the one whose call serves for that of the other, with the
// lesser turn of both.
fn kept_of(book: &Book, twin: Choice, new: Choice) -> Choice
    requires valid { IsValid book.now }
    requires new { IsCall book.now (call_at new.place) }
    requires twin { HasOperationOf book.now new.place twin.place }
    ensures { IsKeptOf book.now twin.place new.place result.place }
{
    let turn = twin.turn.min(new.turn);
    let place = if serves(book, call_of(twin.place), call_of(new.place)) {
        twin.place
    } else {
        new.place
    };
    Choice { turn, place }
}

// Whether the first of two calls of one operation serves for the second; if it doesn't, the second
// one serves for the first.
fn serves(book: &Book, a: Call, b: Call) -> bool
    requires valid { IsValid book.now }
    requires first { IsCall book.now a }
    requires second { IsCall book.now b }
    requires same { operation_of book.now a ≡ operation_of book.now b }
    ensures first { IsTrue result → ServesFor book.now a b }
    ensures second { IsFalse result → ServesFor book.now b a }
{
    if b.number >= book.answers(b.caller) {
        return true;
    }
    if a.number >= book.answers(a.caller) {
        return false;
    }
    book.record(a).view.within(&book.record(b).view)
}

// The call at a place.
fn call_of(place: Place) -> Call
    ensures { result ≡ call_at place }
{
    Call {
        caller: place.caller,
        number: place.number,
    }
}

// Inserts a choice among others before the first one with a lesser turn.
fn add(choices: &mut Vec<Choice>, new: Choice) -> Result<(), NoMemory>
    ensures added { OnOk result (IsAdded choices.old.items new choices.new.items) }
    ensures few { length choices.new.items ≤ length choices.old.items + 1 }
{
    choices.insert(slot_of(choices, new.turn), new)?;
    Ok(())
}

// The index of the first choice with a turn less than `turn`, and the number of choices where no
// choice has such a turn.
fn slot_of(choices: &[Choice], turn: u64) -> usize
    ensures { result ≤ length choices.now }
{
    for (index, choice) in choices.iter().enumerate() {
        if choice.turn < turn {
            return index;
        }
    }
    choices.len()
}
