ghost use Rattle.std.specs.Prelude.{◌≡◌, ◌↔◌, ◌+◌, IsTrue, IsSome, IsNone, IfSome, IfNone, IfOk, IfErr, Some, None, is_some};
ghost use Rattle.call_handles.specs.Handles.{IsSound};
ghost use Rattle.call_handles.specs.Tables.{rows_in, next_of, IsSoundTable, GivesNext};
ghost use Rattle.call_handles.specs.Slots.{handle_in, IsSized, IsSizedTable, IsOpened, IsOpenedTable, MayGive, IsFreshAs, HasGiven};

use crate::role::CallerRole;
use crate::slot::Slot;
use crate::{Handle, TableHandle};
use book_base::{MAX_CALLERS, MAX_CALLS, NoMemory};
use core::mem::replace_with;
use seq_objects::Kind;
use std::alloc::Global;

/// Opens a table for this many callers, 1 to 16, with 1 to 256 calls each, which are judged by the
/// kind of this name, and puts its handle into the slot. The answer is whether it does: it doesn't
/// where no kind has this name, where the callers or the calls aren't within these limits, or where
/// the slot has a handle.
pub fn open(
    alloc: Global,
    kind: &[u8],
    callers: u32,
    calls: u64,
    slot: &mut Slot,
) -> Result<bool, NoMemory>
    // The answer is true exactly where there is a kind of this name, the callers and the calls are
    // within the limits, and the slot had no handle.
    ensures when { IfOk result (λ done. IsTrue done ↔
        IsSized kind.now callers calls × (handle_in slot.old ≡ None)) }
    // With true the slot has the handle of a table of this kind with these callers and calls, which
    // has given no caller.
    ensures opened { IfOk result (λ done. IsTrue done →
        IsOpened kind.now callers calls (handle_in slot.new)) }
    // With false the slot is as it was.
    ensures unchanged { IfOk result (λ done. ¬ IsTrue done → slot.new ≡ slot.old) }
    // After want of memory the slot is as it was.
    ensures no_memory { IfErr result (λ _. slot.new ≡ slot.old) }
{
    if slot.is_taken()
        || callers == 0
        || callers as usize > MAX_CALLERS
        || calls == 0
        || calls > MAX_CALLS
    {
        return Ok(false);
    }
    let Some(kind) = Kind::from_name(kind) else {
        return Ok(false);
    };
    let table = TableHandle::open(alloc, kind, callers, calls)?;
    let handle = Box::new(alloc, Handle::Table(table))?;
    *slot = Slot::of(handle);
    Ok(true)
}

/// Opens a table for this many callers, 1 to 16, with 1 to 256 calls each, whose calls a model is to
/// judge, and puts its handle into the slot. The answer is whether it does: it doesn't where the
/// callers or the calls aren't within these limits, or where the slot has a handle.
pub fn open_modelled(
    alloc: Global,
    callers: u32,
    calls: u64,
    slot: &mut Slot,
) -> Result<bool, NoMemory>
    // The answer is true exactly where the callers and the calls are within the limits, and the slot
    // had no handle.
    ensures when { IfOk result (λ done. IsTrue done ↔
        IsSizedTable callers calls × (handle_in slot.old ≡ None)) }
    // With true the slot has the handle of a table with these callers and calls, which has given no
    // caller.
    ensures opened { IfOk result (λ done. IsTrue done →
        IsOpenedTable callers calls (handle_in slot.new)) }
    // With false the slot is as it was.
    ensures unchanged { IfOk result (λ done. ¬ IsTrue done → slot.new ≡ slot.old) }
    // After want of memory the slot is as it was.
    ensures no_memory { IfErr result (λ _. slot.new ≡ slot.old) }
{
    // a table has a kind, which a caller whose calls a model judges never uses
    open(
        alloc,
        Kind::Register.name().as_bytes(),
        callers,
        calls,
        slot,
    )
}

// The handle in this role of the next caller of a table, while there is one.
fn next_in(table: &mut TableHandle, given: (Global, CallerRole)) -> Result<Option<Handle>, NoMemory>
    requires sound { IsSoundTable table.old }
    ensures sound { IsSoundTable table.new }
    ensures when { IfOk result (λ found.
        IsNone found ↔ (next_of table.old ≡ (rows_in table.old).callers)) }
    ensures given { IfOk result (λ found. IfSome found
        (IsFreshAs given.1 table.old (next_of table.old))) }
    ensures given_sound { IfOk result (λ found. IfSome found IsSound) }
    ensures next { IfOk result (λ found. IfSome found (λ _.
        GivesNext (next_of table.old + 1) table.old table.new)) }
    ensures none { IfOk result (λ found. IfNone found (table.new ≡ table.old)) }
    ensures unchanged { IfErr result (λ _. table.new ≡ table.old) }
{
    let (alloc, role) = given;
    match role {
        CallerRole::Caller => match table.caller()? {
            Some(caller) => Ok(Some(Handle::Caller(caller))),
            None => Ok(None),
        },
        CallerRole::Monitor => match table.monitor(alloc)? {
            Some(monitor) => Ok(Some(Handle::Monitor(monitor))),
            None => Ok(None),
        },
        CallerRole::Modelled => match table.modelled(alloc)? {
            Some(caller) => Ok(Some(Handle::Modelled(caller))),
            None => Ok(None),
        },
    }
}

// The handle, and beside it a handle of the next caller, in this role, where the first one is that
// of a table with a caller left to give.
fn given_by(
    handle: Handle,
    given: (Global, CallerRole),
) -> (Handle, Result<Option<Handle>, NoMemory>)
    requires sound { IsSound handle }
    ensures sound { IsSound result.0 }
    ensures when { IfOk result.1 (λ found. IsSome found ↔ MayGive (Some handle)) }
    ensures given { IfOk result.1 (λ found. IfSome found (λ next.
        HasGiven given.1 (Some handle) (Some result.0) (Some next))) }
    ensures given_sound { IfOk result.1 (λ found. IfSome found IsSound) }
    ensures unchanged { IfOk result.1 (λ found. IfNone found (result.0 ≡ handle)) }
    ensures no_memory { IfErr result.1 (λ _. result.0 ≡ handle) }
{
    match handle {
        Handle::Table(mut table) => {
            let next = next_in(&mut table, given);
            (Handle::Table(table), next)
        }
        handle => (handle, Ok(None)),
    }
}

fn given_in(slot: Slot, given: (Global, CallerRole)) -> (Slot, Result<Option<Handle>, NoMemory>)
    requires taken { IsTrue (is_some (handle_in slot)) }
    ensures when { IfOk result.1 (λ found. IsSome found ↔ MayGive (handle_in slot)) }
    ensures given { IfOk result.1 (λ found. IfSome found (λ next.
        HasGiven given.1 (handle_in slot) (handle_in result.0) (Some next))) }
    ensures given_sound { IfOk result.1 (λ found. IfSome found IsSound) }
    ensures unchanged { IfOk result.1 (λ found.
        IfNone found (handle_in result.0 ≡ handle_in slot)) }
    ensures no_memory { IfErr result.1 (λ _. handle_in result.0 ≡ handle_in slot) }
{
    let (mut handle, _) = slot.take(given.0);
    let next = replace_with(&mut *handle, given, given_by);
    (Slot::of(handle), next)
}

// The box, with this handle in it.
fn filled(mut place: Box<Handle>, handle: Handle) -> Box<Handle>
    ensures { result.value ≡ handle }
{
    *place = handle;
    place
}

/// Puts the handle of a table's next caller, in this role, into the slot. The answer is whether it
/// does; it doesn't where the first slot has no table, where this table has given all its callers,
/// or where the second slot has a handle.
pub fn give(
    alloc: Global,
    role: CallerRole,
    table: &mut Slot,
    slot: &mut Slot,
) -> Result<bool, NoMemory>
    // The answer is true exactly where the first slot has a table with a caller left to give, and
    // the second slot had no handle.
    ensures when { IfOk result (λ done. IsTrue done ↔
        MayGive (handle_in table.old) × (handle_in slot.old ≡ None)) }
    // With true the second slot has the handle of the table's next caller, fresh and in this role,
    // and the table gives the caller after it next.
    ensures given { IfOk result (λ done. IsTrue done →
        HasGiven role (handle_in table.old) (handle_in table.new) (handle_in slot.new)) }
    // With false the table and the second slot are as they were.
    ensures unchanged { IfOk result (λ done. ¬ IsTrue done →
        (handle_in table.new ≡ handle_in table.old) × (slot.new ≡ slot.old)) }
    // After want of memory the table and the second slot are as they were.
    ensures no_memory { IfErr result (λ _.
        (handle_in table.new ≡ handle_in table.old) × (slot.new ≡ slot.old)) }
{
    if slot.is_taken() || !table.is_taken() {
        return Ok(false);
    }
    let place = Box::new(alloc, Handle::Spare)?;
    match replace_with(table, (alloc, role), given_in) {
        Ok(Some(handle)) => {
            *slot = Slot::of(filled(place, handle));
            Ok(true)
        }
        Ok(None) => Ok(false),
        Err(NoMemory) => Err(NoMemory),
    }
}
