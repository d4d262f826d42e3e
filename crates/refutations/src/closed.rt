ghost use Rattle.std.specs.Prelude.{◌≡◌, ◌↔◌, ℕ, ◌<◌, ◌≤◌, List, length, slice_get, Some, IfOk, IfErr, IfSome, IfNone, OnOk, IsOk, IsTrue, IsFalse};
ghost use Rattle.book_base.specs.declared.TheConstants.{MAX_CALLERS};
ghost use Rattle.book_base.specs.Next.{next_call, MayComeNext};
ghost use Rattle.book_base.specs.Pruning.{IsLeast};
ghost use Rattle.search_hints.specs.Marks.{MarksAllNext};
ghost use Rattle.refutations.specs.Closed.{Item, IsOneItem, LeadsInside, IsClosedAt, with_entry, IsMade, MakeClosed};
ghost use Rattle.refutations.specs.Fault.{IsFirstFault};
ghost use Rattle.refutations.specs.Stored.{item_of, Fits, AreFit, AreListed, IsOpenAt, IsFirstOpen};

use crate::entry::Entry;
use crate::fault::ClosedFault;
use crate::items::Items;
use crate::stored_item::{StoredItem, empty_state, start};
use book_base::{Book, Call, NoMemory, SeqObject, State};
use search_hints::{MarkedCallers, all_next, cut_of, first_view, least_open};
use std::alloc::Global;

/// Judges entries, without a search: Ok where they make a closed list, and else their first fault.
pub fn check_closed<S: SeqObject>(
    alloc: Global,
    object: &S,
    book: &Book,
    entries: &[Entry],
) -> Result<Result<(), ClosedFault>, NoMemory>
    // An answer Ok comes only where the entries make a closed list.
    ensures closed { IfOk result
        (λ answer. OnOk answer (MakeClosed (S.spec object.now) book.now entries.now)) }
    // Entries that make a closed list are answered Ok, want of memory aside.
    ensures accepted { MakeClosed (S.spec object.now) book.now entries.now → IfOk result IsOk }
    // A fault is that of the first test that the entries fail.
    ensures fault { IfOk result
        (λ answer. IfErr answer (IsFirstFault (S.spec object.now) book.now entries.now)) }
{
    let mut state = empty_state(alloc, object)?;
    let mut items = Items::new(alloc);
    items.push(start(alloc, object, book, &mut state)?)?;
    for k in 0..entries.len() {
        if !add(alloc, object, book, &mut state, &mut items, entries[k])? {
            return Ok(Err(ClosedFault::Unlisted(k as u64 + 1)));
        }
    }
    first_open(alloc, object, book, &mut state, &items)
}

// Adds the item that an entry makes, where it makes one.
fn add<S: SeqObject>(
    alloc: Global,
    object: &S,
    book: &Book,
    state: &mut State,
    items: &mut Items,
    entry: Entry,
) -> Result<bool, NoMemory>
    requires { AreFit (S.spec object.now) book.now state.old.room items.old }
    ensures fit { OnOk result (AreFit (S.spec object.now) book.now state.new.room items.new) }
    ensures made { IfOk result (λ made. IsTrue made → (list : List Item)
        → AreListed items.old list → IsMade book.now list entry
        × AreListed items.new (with_entry (S.spec object.now) book.now list entry)) }
    ensures unlisted { IfOk result (λ made. IsFalse made → (list : List Item)
        → AreListed items.old list → IsMade book.now list entry → ⊥) }
{
    if entry.caller >= u64::from(book.callers()) {
        return Ok(false);
    }
    let caller = entry.caller as u32;
    let Some(item) = items.get(entry.item) else {
        return Ok(false);
    };
    if u64::from(item.counts[caller as usize]) >= book.calls(caller) {
        return Ok(false);
    }
    let (made, _reply) = item.after(alloc, object, book, state, caller)?;
    items.push(made)?;
    Ok(true)
}

// Why a list of items isn't closed.
fn first_open<S: SeqObject>(
    alloc: Global,
    object: &S,
    book: &Book,
    state: &mut State,
    items: &Items,
) -> Result<Result<(), ClosedFault>, NoMemory>
    requires { AreFit (S.spec object.now) book.now state.old.room items.now }
    ensures closed { IfOk result (λ answer. OnOk answer ((list : List Item)
        → AreListed items.now list → (item : Item) → IsOneItem list item
        → IsClosedAt (S.spec object.now) book.now list item)) }
    ensures fault { IfOk result (λ answer. IfErr answer (λ fault. (list : List Item)
        → AreListed items.now list → IsFirstOpen (S.spec object.now) book.now list fault)) }
{
    for e in 0..items.len() as u64 {
        match first_open_at(alloc, object, book, state, items, e)? {
            Some(fault) => return Ok(Err(fault)),
            None => {}
        }
    }
    Ok(Ok(()))
}

// Why a list of items isn't closed at the one with a number.
fn first_open_at<S: SeqObject>(
    alloc: Global,
    object: &S,
    book: &Book,
    state: &mut State,
    items: &Items,
    number: u64,
) -> Result<Option<ClosedFault>, NoMemory>
    requires { AreFit (S.spec object.now) book.now state.old.room items.now }
    ensures fault { IfOk result (λ found. IfSome found (λ fault. (list : List Item)
        → AreListed items.now list → (item : Item) × (slice_get list number ≡ Some item)
        × IsOpenAt (S.spec object.now) book.now list number item fault)) }
    ensures closed { IfOk result (λ found. IfNone found ((list : List Item)
        → AreListed items.now list → (item : Item) → slice_get list number ≡ Some item
        → IsClosedAt (S.spec object.now) book.now list item)) }
    ensures room { OnOk result (state.new.room ≡ state.old.room) }
{
    let Some(item) = items.get(number) else {
        return Ok(None);
    };
    let Some(first) = least_open(book, &item.counts) else {
        return Ok(Some(ClosedFault::Whole(number)));
    };
    let marks = next_callers(book, &item.counts, first);
    for caller in 0..book.callers() {
        if marks.has(caller) && !leads_inside(alloc, object, book, state, items, item, caller)? {
            return Ok(Some(ClosedFault::Leads(number, caller)));
        }
    }
    Ok(None)
}

// Whether the next call of a caller, which may come next, leads to an item of the list where it may
// stand with the object's reply.
fn leads_inside<S: SeqObject>(
    alloc: Global,
    object: &S,
    book: &Book,
    state: &mut State,
    items: &Items,
    item: &StoredItem,
    caller: u32,
) -> Result<bool, NoMemory>
    requires fits { Fits (S.spec object.now) book.now state.old.room (item_of item.now) }
    requires may { MayComeNext book.now item.now.counts.items
        (next_call item.now.counts.items caller) }
    ensures inside { IfOk result (λ inside. (list : List Item) → AreListed items.now list
        → IsTrue inside
        ↔ LeadsInside (S.spec object.now) book.now list (item_of item.now) caller) }
    ensures room { OnOk result (state.new.room ≡ state.old.room) }
{
    match next_item(alloc, object, book, state, item, caller)? {
        Some(after) => Ok(items.has(&after)),
        None => Ok(true),
    }
}

/// The item to which the next call of a caller leads, where it is unanswered or gets its recorded
/// reply.
pub fn next_item<S: SeqObject>(
    alloc: Global,
    object: &S,
    book: &Book,
    state: &mut State,
    item: &StoredItem,
    caller: u32,
) -> Result<Option<StoredItem>, NoMemory>
    requires fits { Fits (S.spec object.now) book.now state.old.room (item_of item.now) }
    requires may { MayComeNext book.now item.now.counts.items
        (next_call item.now.counts.items caller) }
    ensures leads { IfOk result (λ found. IfSome found (λ after. (list : List Item)
        → IsOneItem list (item_of after)
        ↔ LeadsInside (S.spec object.now) book.now list (item_of item.now) caller)) }
    ensures fits { IfOk result (λ found. IfSome found
        (λ after. Fits (S.spec object.now) book.now state.new.room (item_of after))) }
    ensures none { IfOk result (λ found. IfNone found ((list : List Item)
        → LeadsInside (S.spec object.now) book.now list (item_of item.now) caller)) }
    ensures room { OnOk result (state.new.room ≡ state.old.room) }
{
    let number = u64::from(item.counts[caller as usize]);
    let (after, reply) = item.after(alloc, object, book, state, caller)?;
    if number < book.answers(caller) && book.record(Call { caller, number }).reply != reply {
        return Ok(None);
    }
    Ok(Some(after))
}

/// The callers whose next calls may come next after a cut that lacks an answered call.
pub fn next_callers(book: &Book, counts: &[u16], first: u32) -> MarkedCallers
    requires wide { length counts.now ≡ length book.now }
    requires first { IsLeast book.now counts.now (length book.now) first }
    ensures { MarksAllNext book.now counts.now result }
{
    let _callers = book.callers();
    let cut = cut_of(counts);
    all_next(book, &cut, first_view(book, counts, first), first)
}
