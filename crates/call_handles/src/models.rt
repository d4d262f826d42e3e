ghost use Rattle.std.specs.Prelude.{◌≡◌, ◌↔◌, ◌≤◌, ◌<◌, IsTrue, IsSome, IfSome, IfNone, IfOk, IfErr, Some, None, is_some};
ghost use Rattle.std.specs.List.{AllByRecursion};
ghost use Rattle.book_base.specs.declared.TheConstants.{MAX_CALLERS, MAX_CALLS};
ghost use Rattle.model_checks.specs.Checks.{IsOrderOf, HasOrder, IsEvidenceOf};
ghost use Rattle.call_handles.specs.Handles.{IsSound};
ghost use Rattle.call_handles.specs.Slots.{handle_in, IsModels, IsOpenedModel, MayServe, HasServed};

use crate::Handle;
use crate::slot::Slot;
use book_base::{Call, MAX_CALLERS, NoMemory};
use core::mem::replace_with;
use model_checks::{ModelCheck, ModelReply, ModelRequest};
use std::alloc::Global;

/// Opens a check of a history of so many callers, 1 to 16, by a model, and puts it into the slot.
/// The answer is whether it does: it doesn't where the callers aren't within these limits, or where
/// the slot has a handle.
pub fn open_model(alloc: Global, callers: u32, slot: &mut Slot) -> Result<bool, NoMemory>
    // The answer is true exactly where the callers are within the limits, and the slot had no
    // handle.
    ensures when { IfOk result (λ done. IsTrue done ↔
        (1 ≤ callers) × (callers ≤ MAX_CALLERS) × (handle_in slot.old ≡ None)) }
    // With true the slot has the check of a history without calls, of a model of which nothing was
    // told.
    ensures opened { IfOk result
        (λ done. IsTrue done → IsOpenedModel callers (handle_in slot.new)) }
    // With false the slot is as it was.
    ensures unchanged { IfOk result (λ done. ¬ IsTrue done → slot.new ≡ slot.old) }
    // With want of memory the callers are within the limits, the slot had no handle, and has none.
    ensures no_memory { IfErr result (λ _. (1 ≤ callers) × (callers ≤ MAX_CALLERS)
        × (handle_in slot.old ≡ None) × (slot.new ≡ slot.old)) }
{
    if slot.is_taken() || callers == 0 || callers as usize > MAX_CALLERS {
        return Ok(false);
    }
    let check = ModelCheck::new(alloc, callers)?;
    let handle = Box::new(alloc, Handle::Model(check))?;
    *slot = Slot::of(handle);
    Ok(true)
}

// The handle after a request, where it is a model's check, or a caller that serves it, and the
// reply.
fn served_by(handle: Handle, given: (Global, ModelRequest)) -> (Handle, Option<ModelReply>)
    requires sound { IsSound handle }
    ensures sound { IsSound result.0 }
    ensures when { IsSome result.1 ↔ MayServe given.1 (Some handle) }
    ensures served { IfSome result.1 (λ reply.
        HasServed given.1 reply (Some handle) (Some result.0)) }
    ensures unchanged { IfNone result.1 (result.0 ≡ handle) }
{
    match handle {
        Handle::Model(mut check) => {
            let (alloc, request) = given;
            let reply = check.serve(alloc, request);
            (Handle::Model(check), Some(reply))
        }
        Handle::Modelled(caller) => {
            let (alloc, request) = given;
            let (caller, reply) = caller.serve(alloc, request);
            (Handle::Modelled(caller), reply)
        }
        handle => (handle, None),
    }
}

fn served_in(slot: Slot, given: (Global, ModelRequest)) -> (Slot, Option<ModelReply>)
    requires taken { IsTrue (is_some (handle_in slot)) }
    ensures when { IsSome result.1 ↔ MayServe given.1 (handle_in slot) }
    ensures served { IfSome result.1 (λ reply.
        HasServed given.1 reply (handle_in slot) (handle_in result.0)) }
    ensures unchanged { IfNone result.1 (handle_in result.0 ≡ handle_in slot) }
{
    let (mut handle, _) = slot.take(given.0);
    let reply = replace_with(&mut *handle, given, served_by);
    (Slot::of(handle), reply)
}

/// Does what a program asks of the model's check that is in the slot, or of the caller whose calls a
/// model judges. Without a reply the slot has neither that serves this, and its handle is as it was.
pub fn serve(alloc: Global, slot: &mut Slot, request: ModelRequest) -> Option<ModelReply>
    // There is a reply exactly where the slot has a model's check, or a caller that serves the
    // request.
    ensures when { IsSome result ↔ MayServe request (handle_in slot.old) }
    // A reply is right.
    ensures served { IfSome result (λ reply.
        HasServed request reply (handle_in slot.old) (handle_in slot.new)) }
    // Without a reply the handle is as it was.
    ensures unchanged { IfNone result (handle_in slot.new ≡ handle_in slot.old) }
{
    if !slot.is_taken() {
        return None;
    }
    replace_with(slot, (alloc, request), served_in)
}

// The calls of the order that a model's check has found, where the handle has such an order.
fn order_of(handle: &Handle, alloc: Global) -> Result<Option<Vec<Call>>, NoMemory>
    requires sound { IsSound handle.now }
    ensures when { IfOk result (λ found. IsSome found ↔ IsModels HasOrder (Some handle.now)) }
    ensures order { IfOk result (λ found. IfSome found (λ calls.
        IsModels (IsOrderOf calls.items) (Some handle.now))) }
    ensures few { IfOk result (λ found. IfSome found (λ calls.
        AllByRecursion (λ call. (call.caller < MAX_CALLERS) × (call.number < MAX_CALLS))
        calls.items)) }
{
    match handle {
        Handle::Model(check) => check.calls_in_order(alloc),
        _ => Ok(None),
    }
}

fn order_in(slot: Slot, alloc: Global) -> (Slot, Result<Option<Vec<Call>>, NoMemory>)
    requires taken { IsTrue (is_some (handle_in slot)) }
    ensures when { IfOk result.1 (λ found. IsSome found ↔ IsModels HasOrder (handle_in slot)) }
    ensures order { IfOk result.1 (λ found. IfSome found (λ calls.
        IsModels (IsOrderOf calls.items) (handle_in slot))) }
    ensures few { IfOk result.1 (λ found. IfSome found (λ calls.
        AllByRecursion (λ call. (call.caller < MAX_CALLERS) × (call.number < MAX_CALLS))
        calls.items)) }
    ensures unchanged { handle_in result.0 ≡ handle_in slot }
{
    let (handle, _) = slot.take(alloc);
    let found = order_of(&handle, alloc);
    (Slot::of(handle), found)
}

/// The calls of the legal order that the model's check in the slot has found, in their order.
pub fn model_order(alloc: Global, slot: &mut Slot) -> Result<Option<Vec<Call>>, NoMemory>
    // There is an order exactly where the slot has a model's check that has one.
    ensures when { IfOk result (λ found. IsSome found ↔ IsModels HasOrder (handle_in slot.old)) }
    // The order is legal for each object that agrees with what was told.
    ensures order { IfOk result (λ found. IfSome found (λ calls.
        IsModels (IsOrderOf calls.items) (handle_in slot.old))) }
    // The numbers of its callers and calls are those that a book may have.
    ensures few { IfOk result (λ found. IfSome found (λ calls.
        AllByRecursion (λ call. (call.caller < MAX_CALLERS) × (call.number < MAX_CALLS))
        calls.items)) }
    // The handle is as it was.
    ensures unchanged { handle_in slot.new ≡ handle_in slot.old }
{
    if !slot.is_taken() {
        return Ok(None);
    }
    replace_with(slot, alloc, order_in)
}

// The evidence of a model's check, where the handle is one.
fn evidence_of(handle: &Handle, alloc: Global) -> Result<Option<Vec<u8>>, NoMemory>
    requires sound { IsSound handle.now }
    ensures when { IfOk result
        (λ found. IsSome found ↔ IsModels (λ _. Unit {0}) (Some handle.now)) }
    ensures evidence { IfOk result (λ found. IfSome found (λ bytes.
        IsModels (IsEvidenceOf bytes.items) (Some handle.now))) }
{
    match handle {
        Handle::Model(check) => Ok(Some(check.evidence(alloc)?)),
        _ => Ok(None),
    }
}

fn evidence_in(slot: Slot, alloc: Global) -> (Slot, Result<Option<Vec<u8>>, NoMemory>)
    requires taken { IsTrue (is_some (handle_in slot)) }
    ensures when { IfOk result.1
        (λ found. IsSome found ↔ IsModels (λ _. Unit {0}) (handle_in slot)) }
    ensures evidence { IfOk result.1 (λ found. IfSome found (λ bytes.
        IsModels (IsEvidenceOf bytes.items) (handle_in slot))) }
    ensures unchanged { handle_in result.0 ≡ handle_in slot }
{
    let (handle, _) = slot.take(alloc);
    let found = evidence_of(&handle, alloc);
    (Slot::of(handle), found)
}

/// The evidence of the model's check in the slot: the text of its history's book and of what was
/// told of the model.
pub fn model_evidence(alloc: Global, slot: &mut Slot) -> Result<Option<Vec<u8>>, NoMemory>
    // There is a text exactly where the slot has a model's check.
    ensures when { IfOk result
        (λ found. IsSome found ↔ IsModels (λ _. Unit {0}) (handle_in slot.old)) }
    // The text has the check's book, and tells what was told, and nothing else.
    ensures evidence { IfOk result (λ found. IfSome found (λ bytes.
        IsModels (IsEvidenceOf bytes.items) (handle_in slot.old))) }
    // The handle is as it was.
    ensures unchanged { handle_in slot.new ≡ handle_in slot.old }
{
    if !slot.is_taken() {
        return Ok(None);
    }
    replace_with(slot, alloc, evidence_in)
}
