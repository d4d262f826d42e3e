ghost use Rattle.std.specs.Prelude.{◌≡◌, ◌↔◌, IsTrue, IsSome, IfSome, IfNone, IfOk, IfErr, Some, is_some};
ghost use Rattle.model_callers.specs.Callers.{MayAnnounce, HasAnnounced, HasBegun, IsToBeJudged, IsHalted};
ghost use Rattle.call_handles.specs.Handles.{IsSound};
ghost use Rattle.call_handles.specs.Slots.{handle_in, IsModelled, AreModelled};

use crate::Handle;
use crate::slot::Slot;
use book_base::NoMemory;
use core::mem::replace_with;
use std::alloc::Global;

// The handle, with a call of the operation of this number announced where it is a caller whose calls
// a model judges and that may announce one, and whether it did.
fn announced_by(handle: Handle, op: u32) -> (Handle, bool)
    requires sound { IsSound handle }
    ensures sound { IsSound result.0 }
    ensures when { IsTrue result.1 ↔ IsModelled MayAnnounce (Some handle) }
    ensures begun { IsTrue result.1 → AreModelled (HasBegun op) (Some handle) (Some result.0) }
    ensures unchanged { ¬ IsTrue result.1 → result.0 ≡ handle }
{
    match handle {
        Handle::Modelled(caller) => {
            let (caller, begun) = caller.announce(op);
            (Handle::Modelled(caller), begun)
        }
        handle => (handle, false),
    }
}

fn announced_in(slot: Slot, given: (Global, u32)) -> (Slot, bool)
    requires taken { IsTrue (is_some (handle_in slot)) }
    ensures when { IsTrue result.1 ↔ IsModelled MayAnnounce (handle_in slot) }
    ensures begun { IsTrue result.1
        → AreModelled (HasBegun given.1) (handle_in slot) (handle_in result.0) }
    ensures unchanged { ¬ IsTrue result.1 → handle_in result.0 ≡ handle_in slot }
{
    let (alloc, op) = given;
    let (mut handle, _) = slot.take(alloc);
    let begun = replace_with(&mut *handle, op, announced_by);
    (Slot::of(handle), begun)
}

/// Announces a call with the operation of this number of the caller in the slot, whose calls a model
/// judges, where this caller may announce one. The answer is whether it did; where it didn't, the
/// handle is as it was.
pub fn announce_modelled(alloc: Global, slot: &mut Slot, op: u32) -> bool
    // The answer is true exactly where the slot has a caller whose calls a model judges, that is
    // between two calls and has a call left.
    ensures when { IsTrue result ↔ IsModelled MayAnnounce (handle_in slot.old) }
    // With true the slot's caller has announced a call with this operation.
    ensures begun { IsTrue result
        → AreModelled (HasBegun op) (handle_in slot.old) (handle_in slot.new) }
    // With false the handle is as it was.
    ensures unchanged { ¬ IsTrue result → handle_in slot.new ≡ handle_in slot.old }
{
    if !slot.is_taken() {
        return false;
    }
    replace_with(slot, (alloc, op), announced_in)
}

// The handle after the reply of this number to its announced call is handed in, where one is
// announced, and the answer.
fn answered_by(handle: Handle, given: (Global, u32)) -> (Handle, Option<Result<(), NoMemory>>)
    requires sound { IsSound handle }
    ensures sound { IsSound result.0 }
    ensures when { IsSome result.1 ↔ IsModelled HasAnnounced (Some handle) }
    ensures judging { IfSome result.1 (λ answer. IfOk answer (λ _.
        AreModelled (IsToBeJudged given.1) (Some handle) (Some result.0))) }
    ensures halted { IfSome result.1 (λ answer. IfErr answer (λ _.
        AreModelled (IsHalted given.1) (Some handle) (Some result.0))) }
    ensures unchanged { IfNone result.1 (result.0 ≡ handle) }
{
    match handle {
        Handle::Modelled(caller) => {
            let (alloc, reply) = given;
            let (caller, answer) = caller.answered(alloc, reply);
            (Handle::Modelled(caller), answer)
        }
        handle => (handle, None),
    }
}

fn answered_in(slot: Slot, given: (Global, u32)) -> (Slot, Option<Result<(), NoMemory>>)
    requires taken { IsTrue (is_some (handle_in slot)) }
    ensures when { IsSome result.1 ↔ IsModelled HasAnnounced (handle_in slot) }
    ensures judging { IfSome result.1 (λ answer. IfOk answer (λ _.
        AreModelled (IsToBeJudged given.1) (handle_in slot) (handle_in result.0))) }
    ensures halted { IfSome result.1 (λ answer. IfErr answer (λ _.
        AreModelled (IsHalted given.1) (handle_in slot) (handle_in result.0))) }
    ensures unchanged { IfNone result.1 (handle_in result.0 ≡ handle_in slot) }
{
    let (mut handle, _) = slot.take(given.0);
    let answer = replace_with(&mut *handle, given, answered_by);
    (Slot::of(handle), answer)
}

/// Hands in the reply of this number to the call announced by the caller in the slot, whose calls a
/// model judges, and publishes the call, which is to be judged by [`serve`](crate::serve). Where the
/// slot has no such caller with an announced call that waits for its reply, there is no answer, and
/// the handle is as it was.
pub fn answered_modelled(alloc: Global, slot: &mut Slot, reply: u32) -> Option<Result<(), NoMemory>>
    // There is an answer exactly where the slot has a caller whose calls a model judges, that has
    // announced a call whose reply isn't handed in yet.
    ensures when { IsSome result ↔ IsModelled HasAnnounced (handle_in slot.old) }
    // With `Ok` the call is published with this reply, and the book at the cut that its caller has
    // seen since is gathered and is to be judged.
    ensures judging { IfSome result (λ answer. IfOk answer (λ _.
        AreModelled (IsToBeJudged reply) (handle_in slot.old) (handle_in slot.new))) }
    // With want of memory the call is published with this reply, nobody judges it, and its caller
    // makes no further call.
    ensures halted { IfSome result (λ answer. IfErr answer (λ _.
        AreModelled (IsHalted reply) (handle_in slot.old) (handle_in slot.new))) }
    // Without an answer the handle is as it was.
    ensures unchanged { IfNone result (handle_in slot.new ≡ handle_in slot.old) }
{
    if !slot.is_taken() {
        return None;
    }
    replace_with(slot, (alloc, reply), answered_in)
}
