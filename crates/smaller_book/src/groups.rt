//! Groups of calls that no call which stays can tell, taken out of a book together.
ghost use Rattle.std.specs.Prelude.{◌<◌, length, IfOk, IfSome, IsTrue};
ghost use Rattle.book_base.specs.Book.{IsCall};
ghost use Rattle.smaller_book.specs.Numbers.{numbers_in};
ghost use Rattle.smaller_book.specs.Settings.{IsWithoutUnseen};
ghost use Rattle.smaller_book.specs.Minimal.{IsSmaller};

use crate::kept::{illegal_part, is_illegal_with, keep, keeps};
use crate::one_key::sets_lists;
use crate::read_only::is_read_only;
use crate::removal::Smaller;
use crate::unseen_calls::{cannot_see, is_blind, item_set, overwritten_from};
use book_base::{Book, Call, MAX_CALLERS, MAX_CALLS, NoMemory};
use seq_objects::Kind;
use std::alloc::Global;

/// The greatest number of calls that are sought one after another for a part without a legal order.
const MOST_SEEDS: usize = 64;

/// How many steps a search for the fewest seeds takes at most; with each two it halves the range.
const MOST_STEPS: usize = 64;

// A call that sets a list: the only item of the list after it, or no item.
#[derive(Drop)]
struct Setting {
    call: Call,
    item: Option<u64>,
    // for each caller the number from which on its calls come after one that overwrites the list
    until: Vec<u64>,
}

// A call that may stay, and how many calls stay with it.
#[derive(Clone, Copy, Drop)]
struct Seed {
    call: Call,
    size: usize,
}

// For each caller and each of its calls those calls that it may see.
type Seen = Vec<Vec<Vec<Call>>>;

/// The book without as many calls as can go, where no call that stays can tell and the part has no
/// legal order. With a call that stays, those stay that it may see. Answered calls are sought that
/// have no legal order together: such as few other calls stay with come first, and of these the
/// fewest (after Junker 2004). No book is answered where all calls stay.
pub fn without_unseen(alloc: Global, kind: Kind, book: &Book) -> Result<Option<Smaller>, NoMemory>
    // The answered book is evidence of the book, has no legal order, and has fewer calls.
    ensures smaller { IfOk result (λ found. IfSome found (λ smaller.
        IsSmaller kind book.now (numbers_in smaller.numbers.items) smaller.book)) }
    // It has the calls with the answered numbers, answered as in the book, and lacks only calls that
    // are read-only, or unseen by their words.
    ensures unseen { IfOk result (λ found. IfSome found (λ smaller.
        IsWithoutUnseen kind book.now (numbers_in smaller.numbers.items) smaller.book)) }
{
    let kept = chosen(alloc, kind, book)?;
    illegal_part(alloc, kind, book, &kept)
}

// A table of calls that stay, where no order is legal for them.
fn chosen(alloc: Global, kind: Kind, book: &Book) -> Result<Vec<Vec<bool>>, NoMemory> {
    let seen = seen_in(alloc, kind, book)?;
    let mut kept = none_kept(alloc, book)?;
    let lasting = lasting_calls(alloc, kind, book)?;
    keep_all(alloc, &seen, &mut kept, &lasting)?;
    let seeds = seeds_of(alloc, book, &seen, &kept)?;
    let mut left = seeds.len();
    for _round in 0..MOST_SEEDS {
        if left == 0 || is_illegal_with(alloc, kind, book, &kept)? {
            return Ok(kept);
        }
        left = fewest_seeds(alloc, kind, book, &seen, &kept, &seeds, left)?.saturating_sub(1);
        if let Some(seed) = seeds.get(left) {
            keep_all(alloc, &seen, &mut kept, &[seed.call])?;
        }
    }
    with_seeds(alloc, &seen, &kept, &seeds, left)
}

// The least count of first seeds with which the calls that stay have no legal order; or `most`,
// where that isn't known to be less. Steps up by 1, 2, 4 and so on are tried first, and then the
// range is halved.
fn fewest_seeds(
    alloc: Global,
    kind: Kind,
    book: &Book,
    seen: &Seen,
    kept: &Vec<Vec<bool>>,
    seeds: &[Seed],
    most: usize,
) -> Result<usize, NoMemory> {
    let mut low = 0;
    let mut high = most;
    let mut step: usize = 1;
    for _step in 0..MOST_STEPS {
        if high <= low || high - low <= 1 {
            return Ok(high);
        }
        let middle = low + step.clamp(1, high - low - 1);
        let tried = with_seeds(alloc, seen, kept, seeds, middle)?;
        if is_illegal_with(alloc, kind, book, &tried)? {
            high = middle;
        } else {
            low = middle;
        }
        step = step.saturating_mul(2).min(high.saturating_sub(low) / 2);
    }
    Ok(high)
}

// The table with the first seeds too, this many, and what stays with them.
fn with_seeds(
    alloc: Global,
    seen: &Seen,
    kept: &Vec<Vec<bool>>,
    seeds: &[Seed],
    count: usize,
) -> Result<Vec<Vec<bool>>, NoMemory> {
    let mut calls = Vec::new(alloc);
    for seed in seeds.iter().take(count) {
        calls.push(seed.call)?;
    }
    let mut more = kept.clone()?;
    keep_all(alloc, seen, &mut more, &calls)?;
    Ok(more)
}

// The answered calls that a table doesn't keep, those first with which the fewest calls stay.
fn seeds_of(
    alloc: Global,
    book: &Book,
    seen: &Seen,
    kept: &Vec<Vec<bool>>,
) -> Result<Vec<Seed>, NoMemory> {
    let mut seeds = Vec::new(alloc);
    for caller in 0..book.callers() {
        push_seeds(alloc, book, seen, kept, caller, &mut seeds)?;
    }
    seeds.sort_by_key(|seed| seed.size)?;
    Ok(seeds)
}

// Appends the answered calls of a caller that a table doesn't keep.
fn push_seeds(
    alloc: Global,
    book: &Book,
    seen: &Seen,
    kept: &Vec<Vec<bool>>,
    caller: u32,
    seeds: &mut Vec<Seed>,
) -> Result<(), NoMemory>
    requires { caller < length book.now }
{
    for number in 0..book.answers(caller) {
        let call = Call { caller, number };
        if !keeps(kept, call) {
            let mut more = kept.clone()?;
            let size = keep_all(alloc, seen, &mut more, &[call])?;
            seeds.push(Seed { call, size })?;
        }
    }
    Ok(())
}

// Keeps calls, and with each one those that it may see; and answers how many are new in the table.
fn keep_all(
    alloc: Global,
    seen: &Seen,
    kept: &mut Vec<Vec<bool>>,
    calls: &[Call],
) -> Result<usize, NoMemory> {
    let mut added = Vec::new(alloc);
    keep_each(kept, &mut added, calls)?;
    for place in 0..(MAX_CALLERS as usize) * (MAX_CALLS as usize) {
        let Some(call) = added.get(place).copied() else {
            break;
        };
        if let Some(row) = seen.get(call.caller as usize) {
            if let Some(others) = row.get(call.number as usize) {
                keep_each(kept, &mut added, others)?;
            }
        }
    }
    Ok(added.len())
}

// Keeps calls, and appends those that are new in the table.
fn keep_each(
    kept: &mut Vec<Vec<bool>>,
    added: &mut Vec<Call>,
    calls: &[Call],
) -> Result<(), NoMemory> {
    for call in calls {
        if keep(kept, *call) {
            added.push(*call)?;
        }
    }
    Ok(())
}

// A table for the calls of a book that keeps none.
fn none_kept(alloc: Global, book: &Book) -> Result<Vec<Vec<bool>>, NoMemory> {
    let mut kept = Vec::new(alloc);
    for caller in 0..book.callers() {
        let row = vec![in alloc; false; book.calls(caller) as usize]?;
        kept.push(row)?;
    }
    Ok(kept)
}

// The calls that are neither read-only nor set a list: these can't go.
fn lasting_calls(alloc: Global, kind: Kind, book: &Book) -> Result<Vec<Call>, NoMemory> {
    let lists = sets_lists(kind, book);
    let mut lasting = Vec::new(alloc);
    for caller in 0..book.callers() {
        push_lasting(kind, book, lists, caller, &mut lasting)?;
    }
    Ok(lasting)
}

// Appends the calls of a caller that are neither read-only nor set a list, where `lists` says whether
// calls of the book do.
fn push_lasting(
    kind: Kind,
    book: &Book,
    lists: bool,
    caller: u32,
    lasting: &mut Vec<Call>,
) -> Result<(), NoMemory>
    requires { caller < length book.now }
{
    for number in 0..book.calls(caller) {
        let call = Call { caller, number };
        let sets = lists && item_set(kind, book, call).is_some();
        if !sets && !is_read_only(kind, book, call) {
            lasting.push(call)?;
        }
    }
    Ok(())
}

// For each call of a book those calls that it may see.
fn seen_in(alloc: Global, kind: Kind, book: &Book) -> Result<Seen, NoMemory> {
    let settings = settings_of(alloc, kind, book)?;
    let mut seen = Vec::new(alloc);
    for caller in 0..book.callers() {
        seen.push(seen_by_caller(alloc, kind, book, &settings, caller)?)?;
    }
    Ok(seen)
}

// For each call of a caller those calls that it may see.
fn seen_by_caller(
    alloc: Global,
    kind: Kind,
    book: &Book,
    settings: &[Setting],
    caller: u32,
) -> Result<Vec<Vec<Call>>, NoMemory>
    requires { caller < length book.now }
{
    let mut rows = Vec::new(alloc);
    for number in 0..book.calls(caller) {
        rows.push(seen_by(alloc, kind, book, settings, Call { caller, number })?)?;
    }
    Ok(rows)
}

// The calls whose lists a call may see. Where all such lists are overwritten before it, one of these
// calls counts, so that it stays where a list is shown.
fn seen_by(
    alloc: Global,
    kind: Kind,
    book: &Book,
    settings: &[Setting],
    seer: Call,
) -> Result<Vec<Call>, NoMemory>
    requires { IsCall book.now seer }
{
    let mut seen = Vec::new(alloc);
    let mut last = None;
    if is_blind(kind, book, seer) {
        return Ok(seen);
    }
    for setting in settings {
        if may_show(kind, book, setting, seer) {
            if is_overwritten(setting, seer) {
                last = Some(later_of(kind, book, last, setting.call));
            } else {
                seen.push(setting.call)?;
            }
        }
    }
    if seen.is_empty() {
        if let Some(call) = last {
            seen.push(call)?;
        }
    }
    Ok(seen)
}

// Whether a call may show a list that another one sets.
fn may_show(kind: Kind, book: &Book, setting: &Setting, seer: Call) -> bool
    requires { IsCall book.now seer }
{
    setting.call != seer
        && is_call_of(book, setting.call)
        && !cannot_see(kind, book, setting.call, setting.item, seer)
}

// Whether a call comes after one that overwrites what a call has set.
fn is_overwritten(setting: &Setting, seer: Call) -> bool {
    match setting.until.get(seer.caller as usize) {
        None => false,
        Some(until) => *until <= seer.number,
    }
}

// The call `next`, or the one before it, where this one writes and `next` doesn't, or where it isn't
// known to precede `next`.
fn later_of(kind: Kind, book: &Book, before: Option<Call>, next: Call) -> Call {
    let Some(last) = before else {
        return next;
    };
    if !is_call_of(book, last) || !is_call_of(book, next) {
        return next;
    }
    let writes = is_blind(kind, book, next);
    if writes != is_blind(kind, book, last) {
        return if writes { next } else { last };
    }
    if book.precedes(last, next) {
        next
    } else {
        last
    }
}

// Whether a call is one of a book.
fn is_call_of(book: &Book, call: Call) -> bool
    ensures { IsTrue result → IsCall book.now call }
{
    call.caller < book.callers() && call.number < book.calls(call.caller)
}

// The calls of a book that set a list.
fn settings_of(alloc: Global, kind: Kind, book: &Book) -> Result<Vec<Setting>, NoMemory> {
    let mut settings = Vec::new(alloc);
    if !sets_lists(kind, book) {
        return Ok(settings);
    }
    for caller in 0..book.callers() {
        push_settings(alloc, kind, book, caller, &mut settings)?;
    }
    Ok(settings)
}

// Appends the calls of a caller that set a list.
fn push_settings(
    alloc: Global,
    kind: Kind,
    book: &Book,
    caller: u32,
    settings: &mut Vec<Setting>,
) -> Result<(), NoMemory>
    requires { caller < length book.now }
{
    for number in 0..book.calls(caller) {
        let call = Call { caller, number };
        if let Some(item) = item_set(kind, book, call) {
            let until = overwritten_by_all(alloc, kind, book, call)?;
            settings.push(Setting { call, item, until })?;
        }
    }
    Ok(())
}

// For each caller the number from which on its calls come after one that overwrites what a call
// sets.
fn overwritten_by_all(
    alloc: Global,
    kind: Kind,
    book: &Book,
    setting: Call,
) -> Result<Vec<u64>, NoMemory>
    requires { IsCall book.now setting }
{
    let mut until = Vec::new(alloc);
    for caller in 0..book.callers() {
        until.push(overwritten_from(kind, book, setting, caller))?;
    }
    Ok(until)
}
