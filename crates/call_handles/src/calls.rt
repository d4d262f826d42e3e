ghost use Rattle.std.specs.Prelude.{◌≡◌, ◌↔◌, IsTrue, IsSome, IfSome, IfNone, IfOk, Some, None, is_some};
ghost use Rattle.call_handles.specs.Callers.{MayAnnounce, HasAnnounced};
ghost use Rattle.call_handles.specs.Handles.{IsSound};
ghost use Rattle.call_handles.specs.Monitors.{MayJudge};
ghost use Rattle.call_handles.specs.Slots.{handle_in, IsCallers, Begins, Ends, Publishes, IsMonitors, Judges, HasWitness, Witnesses};

use crate::slot::Slot;
use crate::{Handle, HandleVerdict};
use book_base::{NoMemory, OpWord};
use core::mem::replace_with;
use std::alloc::Global;

// The handle, with a call of this operation announced where its caller may announce one, and
// whether it did.
fn announced_by(handle: Handle, op: OpWord) -> (Handle, bool)
    requires sound { IsSound handle }
    ensures sound { IsSound result.0 }
    ensures when { IsTrue result.1 ↔ IsCallers MayAnnounce (Some handle) }
    ensures begun { IsTrue result.1 → Begins op (Some handle) (Some result.0) }
    ensures unchanged { ¬ IsTrue result.1 → result.0 ≡ handle }
{
    match handle {
        Handle::Caller(caller) => {
            let (caller, begun) = caller.announce(op);
            (Handle::Caller(caller), begun)
        }
        handle => (handle, false),
    }
}

fn announced_in(slot: Slot, given: (Global, OpWord)) -> (Slot, bool)
    requires taken { IsTrue (is_some (handle_in slot)) }
    ensures when { IsTrue result.1 ↔ IsCallers MayAnnounce (handle_in slot) }
    ensures begun { IsTrue result.1 → Begins given.1 (handle_in slot) (handle_in result.0) }
    ensures unchanged { ¬ IsTrue result.1 → handle_in result.0 ≡ handle_in slot }
{
    let (alloc, op) = given;
    let (mut handle, _) = slot.take(alloc);
    let begun = replace_with(&mut *handle, op, announced_by);
    (Slot::of(handle), begun)
}

/// Announces a call with this operation of the caller whose handle is in the slot, where this
/// caller may announce one. The answer is whether it did; where it didn't, the handle is as it was.
pub fn announce(alloc: Global, slot: &mut Slot, op: OpWord) -> bool
    // The answer is true exactly where the slot has a caller that is between two calls and has a
    // call left.
    ensures when { IsTrue result ↔ IsCallers MayAnnounce (handle_in slot.old) }
    // With true the slot's caller has announced a call with this operation.
    ensures begun { IsTrue result → Begins op (handle_in slot.old) (handle_in slot.new) }
    // With false the handle is as it was.
    ensures unchanged { ¬ IsTrue result → handle_in slot.new ≡ handle_in slot.old }
{
    if !slot.is_taken() {
        return false;
    }
    replace_with(slot, (alloc, op), announced_in)
}

// The handle after the reply to its announced call is handed in, where one is announced, and the
// answer.
fn answered_by(handle: Handle, given: (Global, u64)) -> (Handle, Option<HandleVerdict>)
    requires sound { IsSound handle }
    ensures sound { IsSound result.0 }
    ensures when { IsSome result.1 ↔ IsCallers HasAnnounced (Some handle) }
    ensures ended { IfSome result.1 (λ answer.
        Ends given.1 answer (Some handle) (Some result.0)) }
    ensures unchanged { IfNone result.1 (result.0 ≡ handle) }
{
    match handle {
        Handle::Caller(caller) => {
            let (alloc, reply) = given;
            let (caller, answer) = caller.answered(alloc, reply);
            (Handle::Caller(caller), answer)
        }
        handle => (handle, None),
    }
}

fn answered_in(slot: Slot, given: (Global, u64)) -> (Slot, Option<HandleVerdict>)
    requires taken { IsTrue (is_some (handle_in slot)) }
    ensures when { IsSome result.1 ↔ IsCallers HasAnnounced (handle_in slot) }
    ensures ended { IfSome result.1 (λ answer.
        Ends given.1 answer (handle_in slot) (handle_in result.0)) }
    ensures unchanged { IfNone result.1 (handle_in result.0 ≡ handle_in slot) }
{
    let (mut handle, _) = slot.take(given.0);
    let answer = replace_with(&mut *handle, given, answered_by);
    (Slot::of(handle), answer)
}

/// Hands in the reply to the call announced by the caller whose handle is in the slot, and judges
/// the call. Where the slot has no caller with an announced call that waits for its reply, there is
/// no answer, and the handle is as it was.
pub fn answered(alloc: Global, slot: &mut Slot, reply: u64) -> Option<HandleVerdict>
    // There is an answer exactly where the slot has a caller that has announced a call whose reply
    // isn't handed in yet.
    ensures when { IsSome result ↔ IsCallers HasAnnounced (handle_in slot.old) }
    // With an answer the call has this reply, and the answer is right: legal where the book at the
    // cut that its caller has seen has a legal order, illegal where that book has none, or
    // unjudged where the call is published and nobody has judged it.
    ensures ended { IfSome result (λ answer.
        Ends reply answer (handle_in slot.old) (handle_in slot.new)) }
    // Without an answer the handle is as it was.
    ensures unchanged { IfNone result (handle_in slot.new ≡ handle_in slot.old) }
{
    if !slot.is_taken() {
        return None;
    }
    replace_with(slot, (alloc, reply), answered_in)
}

// The handle after its announced call is published with this reply, where one is announced, and
// whether one was.
fn published_by(handle: Handle, reply: u64) -> (Handle, bool)
    requires sound { IsSound handle }
    ensures sound { IsSound result.0 }
    ensures when { IsTrue result.1 ↔ IsCallers HasAnnounced (Some handle) }
    ensures published { IsTrue result.1 → Publishes reply (Some handle) (Some result.0) }
    ensures unchanged { ¬ IsTrue result.1 → result.0 ≡ handle }
{
    match handle {
        Handle::Caller(caller) => {
            let (caller, published) = caller.publish(reply);
            (Handle::Caller(caller), published)
        }
        handle => (handle, false),
    }
}

fn published_in(slot: Slot, given: (Global, u64)) -> (Slot, bool)
    requires taken { IsTrue (is_some (handle_in slot)) }
    ensures when { IsTrue result.1 ↔ IsCallers HasAnnounced (handle_in slot) }
    ensures published { IsTrue result.1 → Publishes given.1 (handle_in slot) (handle_in result.0) }
    ensures unchanged { ¬ IsTrue result.1 → handle_in result.0 ≡ handle_in slot }
{
    let (alloc, reply) = given;
    let (mut handle, _) = slot.take(alloc);
    let published = replace_with(&mut *handle, reply, published_by);
    (Slot::of(handle), published)
}

/// Hands in the reply to the call announced by the caller whose handle is in the slot, and
/// publishes the call without a judgement. The answer is whether a call was announced; where none
/// was, the handle is as it was.
pub fn publish(alloc: Global, slot: &mut Slot, reply: u64) -> bool
    // The answer is true exactly where the slot has a caller that has announced a call whose reply
    // isn't handed in yet.
    ensures when { IsTrue result ↔ IsCallers HasAnnounced (handle_in slot.old) }
    // With true the call is published with this reply, and nobody has judged it.
    ensures published { IsTrue result → Publishes reply (handle_in slot.old) (handle_in slot.new) }
    // With false the handle is as it was.
    ensures unchanged { ¬ IsTrue result → handle_in slot.new ≡ handle_in slot.old }
{
    if !slot.is_taken() {
        return false;
    }
    replace_with(slot, (alloc, reply), published_in)
}

// The handle after a round of its monitor, where the monitor may make one, and the verdict.
fn judged_by(handle: Handle, alloc: Global) -> (Handle, Option<HandleVerdict>)
    requires sound { IsSound handle }
    ensures sound { IsSound result.0 }
    ensures when { IsSome result.1 ↔ IsMonitors MayJudge (Some handle) }
    ensures judged { IfSome result.1 (λ found. Judges found (Some handle) (Some result.0)) }
    ensures unchanged { IfNone result.1 (result.0 ≡ handle) }
{
    match handle {
        Handle::Monitor(monitor) => {
            let (monitor, found) = monitor.judge(alloc);
            (Handle::Monitor(monitor), found)
        }
        handle => (handle, None),
    }
}

fn judged_in(slot: Slot, alloc: Global) -> (Slot, Option<HandleVerdict>)
    requires taken { IsTrue (is_some (handle_in slot)) }
    ensures when { IsSome result.1 ↔ IsMonitors MayJudge (handle_in slot) }
    ensures judged { IfSome result.1 (λ found. Judges found (handle_in slot) (handle_in result.0)) }
    ensures unchanged { IfNone result.1 (handle_in result.0 ≡ handle_in slot) }
{
    let (mut handle, _) = slot.take(alloc);
    let found = replace_with(&mut *handle, alloc, judged_by);
    (Slot::of(handle), found)
}

/// Makes a round of the monitor whose handle is in the slot, where no earlier round was illegal.
/// The answer is what the round found. Where the slot has no monitor, or one that has made an
/// illegal round, there is no answer, and the handle is as it was.
pub fn judge(alloc: Global, slot: &mut Slot) -> Option<HandleVerdict>
    // There is an answer exactly where the slot has a monitor that has made no illegal round.
    ensures when { IsSome result ↔ IsMonitors MayJudge (handle_in slot.old) }
    // With an answer the slot's monitor has made a round. The book at the round's cut has a legal
    // order where the answer is `Legal`, and none where it is `Illegal`. Where the answer is
    // `Unjudged`, the monitor has scanned M, and has no witness.
    ensures judged { IfSome result
        (λ found. Judges found (handle_in slot.old) (handle_in slot.new)) }
    // Without an answer the handle is as it was.
    ensures unchanged { IfNone result (handle_in slot.new ≡ handle_in slot.old) }
{
    if !slot.is_taken() {
        return None;
    }
    replace_with(slot, alloc, judged_in)
}

// The text of the book of a caller's error or of a monitor's illegal round, where the handle has
// such a book.
fn witness_of(handle: &Handle, alloc: Global) -> Result<Option<Vec<u8>>, NoMemory>
    requires sound { IsSound handle.now }
    ensures when { IfOk result (λ found. IsSome found ↔ HasWitness (Some handle.now)) }
    ensures text { IfOk result (λ found. IfSome found (λ text.
        Witnesses (Some handle.now) text.items)) }
{
    match handle {
        Handle::Caller(caller) => caller.witness(alloc),
        Handle::Monitor(monitor) => monitor.witness(alloc),
        Handle::Modelled(caller) => caller.witness(alloc),
        _ => Ok(None),
    }
}

fn witness_in(slot: Slot, alloc: Global) -> (Slot, Result<Option<Vec<u8>>, NoMemory>)
    requires taken { IsTrue (is_some (handle_in slot)) }
    ensures when { IfOk result.1 (λ found. IsSome found ↔ HasWitness (handle_in slot)) }
    ensures text { IfOk result.1 (λ found. IfSome found (λ text.
        Witnesses (handle_in slot) text.items)) }
    ensures unchanged { handle_in result.0 ≡ handle_in slot }
{
    let (handle, _) = slot.take(alloc);
    let found = witness_of(&handle, alloc);
    (Slot::of(handle), found)
}

/// The text of the book of the last call of the slot's caller, where this call was an error, or of
/// the illegal round of the slot's monitor, where it made one.
pub fn witness(alloc: Global, slot: &mut Slot) -> Result<Option<Vec<u8>>, NoMemory>
    // There is a text exactly where the last call of the slot's caller was an error, or the slot's
    // monitor has made an illegal round.
    ensures when { IfOk result (λ found. IsSome found ↔ HasWitness (handle_in slot.old)) }
    // The text is that of the book of the caller's error or of the monitor's illegal round, and
    // this book has no legal order.
    ensures text { IfOk result (λ found. IfSome found (λ text.
        Witnesses (handle_in slot.old) text.items)) }
    // The handle is as it was.
    ensures unchanged { handle_in slot.new ≡ handle_in slot.old }
{
    if !slot.is_taken() {
        return Ok(None);
    }
    replace_with(slot, alloc, witness_in)
}

fn closed(slot: Slot, alloc: Global) -> (Slot, ())
    requires taken { IsTrue (is_some (handle_in slot)) }
    ensures { handle_in result.0 ≡ None }
{
    let (handle, empty) = slot.take(alloc);
    drop(handle);
    (empty, ())
}

/// Drops the handle that is in the slot. The answer is whether there was one. A call that is
/// announced stays unanswered.
pub fn close(alloc: Global, slot: &mut Slot) -> bool
    // The answer says whether the slot had a handle.
    ensures when { result ≡ is_some (handle_in slot.old) }
    // The slot has no handle afterwards.
    ensures gone { handle_in slot.new ≡ None }
{
    if !slot.is_taken() {
        return false;
    }
    replace_with(slot, alloc, closed);
    true
}
