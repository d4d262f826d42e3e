ghost use Rattle.std.specs.Prelude.{◌≡◌, [], ℕ, ◌+◌, ◌<◌, ◌≤◌, ◌==◌, ◌↔◌, if◌then◌else◌, Some, length, slice_index, IfOk, IfNone, IfSome, IsTrue, OnOk};
ghost use Rattle.book_base.specs.Book.{IsCall, IsAnswered};
ghost use Rattle.list_pruning.specs.Sights as sights;
ghost use Rattle.list_pruning.specs.Sights.{place_of, HasItsPlaces, HasPlace, HasPut, HasTake, ListsRead, ListsValues};

use crate::values::{value_put, value_taken};
use book_base::{Book, Call, Cut, NoMemory};
use legal_orders::Reader;
use search_hints::{Labelled, Sight};
use std::alloc::Global;
use std::collections::BTreeMap;

/// The sight of a book's values: for each value the calls that put it in, and the answered ones
/// that take it out.
pub fn sight_of_values<R: Reader>(alloc: Global, reader: &R, book: &Book) -> Result<Sight, NoMemory>
    // The sight lists each call of the book that puts in a value, and each answered one that takes
    // it out.
    ensures { IfOk result (ListsValues (R.reading reader.now) book.now) }
{
    let mut sight = Sight {
        labelled: Vec::new(alloc),
        places: BTreeMap::new(alloc),
    };
    for caller in 0..book.callers() {
        list_caller(alloc, reader, book, &mut sight, caller)?;
    }
    Ok(sight)
}

// Adds the calls of a caller to a sight.
fn list_caller<R: Reader>(
    alloc: Global,
    reader: &R,
    book: &Book,
    sight: &mut Sight,
    caller: u32,
) -> Result<(), NoMemory>
    requires caller { caller < length book.now }
    requires read { ListsRead (R.reading reader.now) book.now caller 0 sight.old }
    ensures read { OnOk result
        (ListsRead (R.reading reader.now) book.now (caller + 1) 0 sight.new) }
{
    for number in 0..book.calls(caller) {
        list_call(alloc, reader, book, sight, Call { caller, number })?;
    }
    Ok(())
}

// Adds a call to a sight, at the value that it puts in or takes out.
fn list_call<R: Reader>(
    alloc: Global,
    reader: &R,
    book: &Book,
    sight: &mut Sight,
    call: Call,
) -> Result<(), NoMemory>
    requires call { IsCall book.now call }
    requires read { ListsRead (R.reading reader.now) book.now call.caller call.number sight.old }
    ensures read { OnOk result
        (ListsRead (R.reading reader.now) book.now call.caller (call.number + 1) sight.new) }
{
    if let Some(value) = value_put(reader, book, call) {
        return list_put(alloc, sight, value, call);
    }
    match value_taken(reader, book, call) {
        Some(value) => list_take(alloc, sight, value, call),
        None => Ok(()),
    }
}

// Adds a call that puts in a value to a sight.
fn list_put(alloc: Global, sight: &mut Sight, value: u64, call: Call) -> Result<(), NoMemory>
    requires { HasItsPlaces sight.old }
    ensures { OnOk result (HasPut sight.old sight.new value call) }
{
    let place = place_for(alloc, sight, value)?;
    sight.labelled[place].puts.push(call)?;
    Ok(())
}

// Adds an answered call that takes out a value to a sight.
fn list_take(alloc: Global, sight: &mut Sight, value: u64, call: Call) -> Result<(), NoMemory>
    requires { HasItsPlaces sight.old }
    ensures { OnOk result (HasTake sight.old sight.new value call) }
{
    let place = place_for(alloc, sight, value)?;
    sight.labelled[place].shows.push(call)?;
    Ok(())
}

// The place of a value's calls in a sight, which is made where the sight has none.
fn place_for(alloc: Global, sight: &mut Sight, value: u64) -> Result<usize, NoMemory>
    requires { HasItsPlaces sight.old }
    ensures { IfOk result (HasPlace sight.old sight.new value) }
{
    let label = u128::from(value);
    if let Some(place) = sight.places.get(&label) {
        return Ok(*place as usize);
    }
    let place = sight.labelled.len();
    sight.labelled.push(Labelled {
        label,
        puts: Vec::new(alloc),
        shows: Vec::new(alloc),
    })?;
    set_place(sight, label, place as u64)?;
    Ok(place)
}

// Sets the place of a label in a sight.
fn set_place(sight: &mut Sight, label: u128, place: u64) -> Result<(), NoMemory>
    ensures places { OnOk result ((v : ℕ)
        → place_of sight.new v ≡ (if v == label then Some place else place_of sight.old v)) }
    ensures labelled { OnOk result (sight.new.labelled ≡ sight.old.labelled) }
{
    sight.places.insert(label, place)?;
    Ok(())
}

/// The calls that a sight lists for a value, where it lists any.
pub fn labelled_of(sight: &Sight, value: u64) -> Option<&Labelled>
    ensures puts { IfSome result
        (λ labelled. labelled.now.puts.items ≡ sights.puts_of sight.now value) }
    ensures shows { IfSome result
        (λ labelled. labelled.now.shows.items ≡ sights.shows_of sight.now value) }
    ensures none { IfNone result
        ((sights.puts_of sight.now value ≡ []) × (sights.shows_of sight.now value ≡ [])) }
{
    let place = sight.places.get(&u128::from(value))?;
    sight.labelled.get(*place as usize)
}

/// Whether a sight lists exactly one call that puts in a value.
pub fn is_put_once(sight: &Sight, value: u64) -> bool
    // The answer is `true` only where the sight lists exactly one call that puts in the value.
    ensures { IsTrue result → length (sights.puts_of sight.now value) ≡ 1 }
{
    match labelled_of(sight, value) {
        Some(labelled) => labelled.puts.len() == 1,
        None => false,
    }
}

/// Whether a call is answered, and outside a cut.
pub fn is_outside(book: &Book, cut: &Cut, call: Call) -> bool
    requires { length cut.now ≡ length book.now }
    ensures { IsTrue result
        ↔ (IsAnswered book.now call × (slice_index cut.now call.caller ≤ call.number)) }
{
    call.caller < book.callers()
        && call.number < book.answers(call.caller)
        && !cut.holds(call.caller, call.number)
}
