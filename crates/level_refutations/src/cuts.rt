ghost use Rattle.std.specs.Prelude.{◌≡◌, ◌↔◌, ℕ, ◌+◌, ◌<◌, List, length, slice_index, slice_set, IfOk, IfErr, IsTrue, IsFalse};
ghost use Rattle.book_base.specs.declared.TheConstants.{MAX_CALLERS, MAX_CALLS};
ghost use Rattle.level_refutations.specs.Closed.{AreBelow, AreMade, IsMade, cuts_of, levels_of, with_cut};
ghost use Rattle.level_refutations.specs.declared.entry.LevelEntry.TheVariants as entry;
ghost use Rattle.level_refutations.specs.Fault.{IsFirstFault};
ghost use Rattle.level_refutations.specs.Stored.{AreCuts};

use crate::entry::LevelEntry;
use crate::fault::LevelFault;
use book_base::{Book, MAX_CALLERS, NoMemory};
use std::alloc::Global;

/// The cuts that entries make, where each entry names what is there; and else the fault of the
/// first one that doesn't. The entries make `levels` levels, with that of the empty stack.
pub fn cuts_of(
    alloc: Global,
    book: &Book,
    entries: &[LevelEntry],
    levels: u64,
) -> Result<Result<Vec<[u16; MAX_CALLERS]>, LevelFault>, NoMemory>
    requires { levels ≡ length (levels_of entries.now) }
    ensures cuts { IfOk result (λ answer. IfOk answer
        (λ cuts. AreCuts book.now cuts.items (cuts_of book.now entries.now))) }
    ensures made { IfOk result (λ answer. IfOk answer
        (λ _. AreMade book.now entries.now (length entries.now))) }
    ensures fault { IfOk result
        (λ answer. IfErr answer (IsFirstFault book.now entries.now)) }
{
    let _callers = book.callers();
    let mut cuts = Vec::new(alloc);
    cuts.push([0; MAX_CALLERS])?;
    for k in 0..entries.len() {
        if !add(book, levels, &mut cuts, &entries[k])? {
            return Ok(Err(LevelFault::Unlisted(k as u64 + 1)));
        }
    }
    Ok(Ok(cuts))
}

// Adds the cut that an entry makes, if it makes one. Answers whether the entry names what is there.
fn add(
    book: &Book,
    levels: u64,
    cuts: &mut Vec<[u16; MAX_CALLERS]>,
    entry: &LevelEntry,
) -> Result<bool, NoMemory>
    ensures made { IfOk result (λ made. IsTrue made → (list : List (List ℕ))
        → AreCuts book.now cuts.old.items list → IsMade book.now levels list entry.now
        × AreCuts book.now cuts.new.items (with_cut book.now list entry.now)) }
    ensures unmade { IfOk result (λ made. IsFalse made → (list : List (List ℕ))
        → AreCuts book.now cuts.old.items list → IsMade book.now levels list entry.now → ⊥) }
{
    match entry {
        LevelEntry::Cut(from, caller) => add_next(book, cuts, *from, *caller),
        LevelEntry::Level(_, below) => Ok(are_below(below, levels)),
        LevelEntry::At(level, numbers) => {
            Ok(*level < levels && are_below(numbers, cuts.len() as u64))
        }
    }
}

// Adds the cut with the number `from` with the next call of `caller`, where both are there.
fn add_next(
    book: &Book,
    cuts: &mut Vec<[u16; MAX_CALLERS]>,
    from: u64,
    caller: u64,
) -> Result<bool, NoMemory>
    ensures made { IfOk result (λ made. IsTrue made → (list : List (List ℕ))
        → AreCuts book.now cuts.old.items list
        → IsMade book.now 0 list (entry.Cut from caller)
        × AreCuts book.now cuts.new.items (with_cut book.now list (entry.Cut from caller))) }
    ensures unmade { IfOk result (λ made. IsFalse made → (list : List (List ℕ))
        → AreCuts book.now cuts.old.items list
        → IsMade book.now 0 list (entry.Cut from caller) → ⊥) }
{
    if caller >= u64::from(book.callers()) || from >= cuts.len() as u64 {
        return Ok(false);
    }
    let counts = cuts[from as usize];
    if u64::from(counts[caller as usize]) >= book.calls(caller as u32) {
        return Ok(false);
    }
    cuts.push(raised(&counts, caller as u32))?;
    Ok(true)
}

// Whether each of some numbers is below a bound.
fn are_below(numbers: &[u64], bound: u64) -> bool
    ensures { IsTrue result ↔ AreBelow numbers.now bound }
{
    for k in 0..numbers.len() {
        if numbers[k] >= bound {
            return false;
        }
    }
    true
}

/// `counts` with one more call of `caller`.
pub fn raised(counts: &[u16; MAX_CALLERS], caller: u32) -> [u16; MAX_CALLERS]
    requires caller { caller < MAX_CALLERS }
    requires few { slice_index counts.now caller < MAX_CALLS }
    ensures { result ≡ slice_set counts.now caller (slice_index counts.now caller + 1) }
{
    let mut more = *counts;
    more[caller as usize] += 1;
    more
}
