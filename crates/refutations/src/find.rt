ghost use Rattle.std.specs.Prelude.{IfOk, IfSome, OnOk};
ghost use Rattle.book_base.specs.Next.{next_call, MayComeNext};
ghost use Rattle.refutations.specs.Closed.{MakeClosed};
ghost use Rattle.refutations.specs.Stored.{item_of, Fits, AreFit};

use crate::closed::{check_closed, next_callers, next_item};
use crate::entry::Entry;
use crate::items::Items;
use crate::stored_item::{StoredItem, empty_state, start};
use book_base::{Book, NoMemory, SeqObject, State};
use search_hints::least_open;
use std::alloc::Global;

/// Searches for entries that make a closed list, by breadth from the item before all calls. The
/// answer is `None` where the search comes to an item with all answered calls, as it does in each
/// book with a legal order, or to more than `limit` items.
///
/// The search isn't trusted: what it finds is judged, and is answered only where it makes a closed
/// list. No clause says how often it finds entries.
pub fn find_closed<S: SeqObject>(
    alloc: Global,
    object: &S,
    book: &Book,
    limit: u64,
) -> Result<Option<Vec<Entry>>, NoMemory>
    // The entries in the answer make a closed list.
    ensures { IfOk result (λ found. IfSome found
        (λ entries. MakeClosed (S.spec object.now) book.now entries.items)) }
{
    let Some(entries) = search(alloc, object, book, limit)? else {
        return Ok(None);
    };
    match check_closed(alloc, object, book, &entries)? {
        Ok(()) => Ok(Some(entries)),
        Err(_) => Ok(None),
    }
}

// The entries of all items that a search by breadth comes to.
fn search<S: SeqObject>(
    alloc: Global,
    object: &S,
    book: &Book,
    limit: u64,
) -> Result<Option<Vec<Entry>>, NoMemory> {
    let mut state = empty_state(alloc, object)?;
    let mut items = Items::new(alloc);
    items.push(start(alloc, object, book, &mut state)?)?;
    let mut entries = Vec::new(alloc);
    for number in 0..limit {
        let Some(item) = items.get(number) else {
            return Ok(Some(entries));
        };
        let item = item.copy(alloc)?;
        if !expand(
            alloc,
            object,
            book,
            &mut state,
            &mut items,
            &mut entries,
            number,
            &item,
        )? {
            return Ok(None);
        }
    }
    Ok(None)
}

// Adds the items to which the next calls lead from an item with this number, with their entries.
// The answer is false where the item has all answered calls.
fn expand<S: SeqObject>(
    alloc: Global,
    object: &S,
    book: &Book,
    state: &mut State,
    items: &mut Items,
    entries: &mut Vec<Entry>,
    number: u64,
    item: &StoredItem,
) -> Result<bool, NoMemory>
    requires fits { Fits (S.spec object.now) book.now state.old.room (item_of item.now) }
    requires fit { AreFit (S.spec object.now) book.now state.old.room items.old }
    ensures { OnOk result (AreFit (S.spec object.now) book.now state.new.room items.new) }
{
    let Some(first) = least_open(book, &item.counts) else {
        return Ok(false);
    };
    let marks = next_callers(book, &item.counts, first);
    for caller in 0..book.callers() {
        if !marks.has(caller) {
            continue;
        }
        let Some(after) = next_item(alloc, object, book, state, item, caller)? else {
            continue;
        };
        if items.has(&after) {
            continue;
        }
        items.push(after)?;
        entries.push(Entry {
            item: number,
            caller: u64::from(caller),
        })?;
    }
    Ok(true)
}
