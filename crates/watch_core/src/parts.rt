//! The parts of a watch, by key.

ghost use Rattle.std.specs.Prelude.{◌≡◌, ◌↔◌, ◌-◌, ◌^◌, [], ℕ, nat_eq, IsTrue, List, Some, None, IfOk, IfSome, IfNone, OnOk, OnErr, min};
ghost use Rattle.std.specs.Map.{lookup};
ghost use Rattle.book_base.specs.SeqSpec.{SeqSpec};
ghost use Rattle.seq_objects.specs.Objects.{kind_spec};
ghost use Rattle.streams.specs.Stream.{StreamEvent, Called, Returned, Lost, IsValidStream};
ghost use Rattle.late_residue.specs.LateOnes.{IsBeyond};
ghost use Rattle.watch_core.specs.Part.{IsHeldAt, Copies, IsTold, calls_at, residue_at};
ghost use Rattle.watch_core.specs.Parts.{TakeEvent, AreTold, configurations_of};

use crate::part::Part;
use book_base::{NoMemory, OpWord};
use indexmap::IndexMap;
use seq_objects::Kind;
use std::alloc::Global;

/// A copy of parts.
pub fn copy_of(alloc: Global, parts: &IndexMap<u64, Part>) -> Result<IndexMap<u64, Part>, NoMemory>
    ensures { IfOk result (λ copy. (k : ℕ) → Copies (lookup (nat_eq k) parts.now.entries)
        (lookup (nat_eq k) copy.entries)) }
{
    let mut copy = IndexMap::new(alloc);
    for at in 0..parts.len() {
        if let Some((key, part)) = parts.get_index(at) {
            copy.insert(*key, part.copy(alloc)?)?;
        }
    }
    Ok(copy)
}

/// How many descriptions some parts have, or `usize::MAX` where they have more.
pub fn count_of(parts: &IndexMap<u64, Part>) -> usize
    ensures { result ≡ min (configurations_of parts.now.entries) (2 ^ 64 - 1) }
{
    let mut count: usize = 0;
    for at in 0..parts.len() {
        if let Some((_, part)) = parts.get_index(at) {
            count = count.saturating_add(part.configurations());
        }
    }
    count
}

/// A process calls an operation with a key.
pub fn call_in(
    alloc: Global,
    kind: Kind,
    parts: &mut IndexMap<u64, Part>,
    key: u64,
    process: u64,
    op: OpWord,
) -> Result<(), NoMemory>
    ensures taken { OnOk result (TakeEvent (kind_spec kind) key (Called process op)
        parts.old.entries parts.new.entries) }
    ensures same { OnErr result (parts.new.entries ≡ parts.old.entries) }
{
    if let Some(part) = parts.get_mut(&key) {
        return part.call(process, op);
    }
    let mut part = Part::new(alloc, kind)?;
    part.call(process, op)?;
    parts.insert(key, part)?;
    Ok(())
}

/// The pending call of a process, which has a key, is lost.
pub fn lose_in(parts: &mut IndexMap<u64, Part>, key: u64, process: u64)
    ensures { (spec : SeqSpec) → TakeEvent spec key (Lost process) parts.old.entries
        parts.new.entries }
{
    if let Some(part) = parts.get_mut(&key) {
        part.lose(process);
    }
}

/// The pending call of a process, which has a key, returns with a reply. The answer is whether the
/// part of the key has no description then, or `None` where the limit is met.
pub fn return_in(
    alloc: Global,
    kind: Kind,
    limit: usize,
    parts: &mut IndexMap<u64, Part>,
    key: u64,
    process: u64,
    reply: u64,
) -> Result<Option<bool>, NoMemory>
    ensures taken { IfOk result (λ found. IfSome found (λ _. TakeEvent (kind_spec kind) key
        (Returned process reply) parts.old.entries parts.new.entries)) }
    ensures empty { IfOk result (λ found. IfSome found (λ empty.
        IsTrue empty ↔ (residue_at (lookup (nat_eq key) parts.new.entries) ≡ []))) }
    ensures beyond { IfOk result (λ found. IfNone found ((events : List StreamEvent)
        → IsHeldAt (kind_spec kind) (lookup (nat_eq key) parts.old.entries) events
        → IsBeyond (kind_spec kind) events (calls_at (lookup (nat_eq key) parts.old.entries))
        limit)) }
    ensures same { OnErr result (parts.new.entries ≡ parts.old.entries) }
{
    let Some(part) = parts.get_mut(&key) else {
        return Ok(Some(true));
    };
    if !part.take_return(alloc, kind, limit, process, reply)? {
        return Ok(None);
    }
    Ok(Some(part.is_empty()))
}

/// Tells with which reply the pending call of a process, which has a key, will return.
pub fn expect_in(parts: &mut IndexMap<u64, Part>, key: u64, process: u64, reply: u64)
    ensures { (spec : SeqSpec) → AreTold spec key process reply parts.old.entries
        parts.new.entries }
{
    if let Some(part) = parts.get_mut(&key) {
        part.expect(process, reply);
    }
}
