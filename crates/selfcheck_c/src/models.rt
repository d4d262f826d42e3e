ghost use Rattle.std.specs.Prelude.{◌≡◌, ◌↔◌, ◌⊎◌, ◌<◌, ◌≤◌, ℕ, List, None, drop, length, map, take};
ghost use Rattle.book_base.specs.declared.TheConstants.{MAX_CALLERS};
ghost use Rattle.book_base.specs.declared.call.Call.{Call};
ghost use Rattle.model_checks.specs.declared.answer.ModelAnswer.{ModelAnswer};
ghost use Rattle.model_checks.specs.declared.request.ModelReply.{ModelReply};
ghost use Rattle.model_checks.specs.declared.request.ModelRequest.{ModelRequest};
ghost use Rattle.model_checks.specs.History.{MayBegin, MayEnd};
ghost use Rattle.model_checks.specs.Checks.{HasOrder, IsOrderOf, IsEvidenceOf};
ghost use Rattle.model_callers.specs.Callers.{MayAnnounce, HasAnnounced, HasBegun, IsToBeJudged, IsHalted};
ghost use Rattle.call_handles.specs.Slots.{handle_in, IsSizedTable, IsOpenedTable, MayGive, HasGiven, IsModels, IsModelled, AreModelled, IsOpenedModel, MayServe, HasServed};
ghost use Rattle.selfcheck_c.specs.declared.TheConstants.{LEGAL, ILLEGAL, NO_MEMORY, NO_ROOM};
ghost use Rattle.selfcheck_c.specs.declared.handles.TheConstants.{DONE, UNFIT};
ghost use Rattle.selfcheck_c.specs.Models.{named_call};

use crate::buffer::put;
use crate::handles::{DONE, UNFIT};
use crate::placed::{PlacedCall, put_calls};
use crate::{ILLEGAL, LEGAL, NO_MEMORY, NO_ROOM};
use book_base::NoMemory;
use call_handles::{
    CallerRole, Slot, announce_modelled, answered_modelled, give, model_evidence, model_order,
    open_model, open_modelled, serve,
};
use model_checks::{ModelAnswer, ModelReply, ModelRequest, ModelStep};
use std::alloc::Global;

/// The question is written: what its operation does at its state is to be told.
pub const ASK: u32 = 10;
/// The steps are used up; a further call goes on.
pub const PAUSED: u32 = 11;
/// Another step was told there, and nothing has changed.
pub const CONTRADICTS: u32 = 12;
/// The step breaks a promise, or the promise a told step, and nothing has changed.
pub const LEAVES_NOT: u32 = 13;

/// What a check of a model asks: what this operation does at this state.
#[repr(C)]
#[derive(Clone, Copy)]
pub struct ModelQuestion {
    pub state: u32,
    pub op: u32,
}

/// Opens a check of a history of this many callers, 1 to 16, by a model, and puts it into the slot,
/// which is to have no handle. The initial state of the model has the number 0.
#[unsafe(no_mangle)]
pub extern "C" fn selfcheck_model_open(alloc: Global, callers: u32, slot: &mut Slot) -> u32
    // With `DONE` the slot has the check of a history without calls, of a model of which nothing
    // was told.
    ensures opened { result ≡ DONE → IsOpenedModel callers (handle_in slot.new) }
    // The status is `UNFIT` exactly where the callers aren't within the limits, or the slot had a
    // handle.
    ensures unfit { (result ≡ UNFIT) ↔
        ¬ ((1 ≤ callers) × (callers ≤ MAX_CALLERS) × (handle_in slot.old ≡ None)) }
    // With each status but `DONE` the slot is as it was.
    ensures unchanged { ¬ (result ≡ DONE) → slot.new ≡ slot.old }
    // The status is `DONE`, `NO_MEMORY` or `UNFIT`.
    ensures ends { (result ≡ DONE) ⊎ (result ≡ NO_MEMORY) ⊎ (result ≡ UNFIT) }
{
    match open_model(alloc, callers, slot) {
        Ok(true) => DONE,
        Ok(false) => UNFIT,
        Err(NoMemory) => NO_MEMORY,
    }
}

/// A caller's next call begins, with this operation. Its last call is to have ended, and it is to
/// have made fewer than 256 calls.
#[unsafe(no_mangle)]
pub extern "C" fn selfcheck_model_begin(alloc: Global, slot: &mut Slot, caller: u32, op: u32) -> u32
    // With `DONE` the call has begun, and what was told of the model is as before.
    ensures begun { result ≡ DONE → HasServed (ModelRequest.Begin caller op) ModelReply.Done
        (handle_in slot.old) (handle_in slot.new) }
    // The status is `UNFIT` exactly where the slot has no check of a model, the history has no such
    // caller, its last call hasn't ended, or it has made 256 calls.
    ensures unfit { (result ≡ UNFIT) ↔
        ¬ IsModels (λ check. MayBegin check.book caller) (handle_in slot.old) }
    // With each status but `DONE` the check is as it was.
    ensures unchanged { ¬ (result ≡ DONE) → handle_in slot.new ≡ handle_in slot.old }
    // The status is `DONE`, `NO_MEMORY` or `UNFIT`.
    ensures ends { (result ≡ DONE) ⊎ (result ≡ NO_MEMORY) ⊎ (result ≡ UNFIT) }
{
    let Some(reply) = serve(alloc, slot, ModelRequest::Begin(caller, op)) else {
        return UNFIT;
    };
    match reply {
        ModelReply::Done => DONE,
        ModelReply::NoMemory => NO_MEMORY,
        _ => UNFIT,
    }
}

/// The caller's call that has begun ends, with this reply.
#[unsafe(no_mangle)]
pub extern "C" fn selfcheck_model_end(
    alloc: Global,
    slot: &mut Slot,
    caller: u32,
    reply: u32,
) -> u32
    // With `DONE` the call has ended, and what was told of the model is as before.
    ensures ended { result ≡ DONE → HasServed (ModelRequest.End caller reply) ModelReply.Done
        (handle_in slot.old) (handle_in slot.new) }
    // The status is `UNFIT` exactly where the slot has no check of a model, the history has no such
    // caller, or no call of it has begun that hasn't ended.
    ensures unfit { (result ≡ UNFIT) ↔
        ¬ IsModels (λ check. MayEnd check.book caller) (handle_in slot.old) }
    // With each status but `DONE` the check is as it was.
    ensures unchanged { ¬ (result ≡ DONE) → handle_in slot.new ≡ handle_in slot.old }
    // The status is `DONE`, `NO_MEMORY` or `UNFIT`.
    ensures ends { (result ≡ DONE) ⊎ (result ≡ NO_MEMORY) ⊎ (result ≡ UNFIT) }
{
    let Some(reply) = serve(alloc, slot, ModelRequest::End(caller, reply)) else {
        return UNFIT;
    };
    match reply {
        ModelReply::Done => DONE,
        ModelReply::NoMemory => NO_MEMORY,
        _ => UNFIT,
    }
}

/// Promises that the operation changes no state at which it has this reply, to a check or to a
/// caller whose calls a model judges. Each told step is held against it.
#[unsafe(no_mangle)]
pub extern "C" fn selfcheck_model_leaves(alloc: Global, slot: &mut Slot, op: u32, reply: u32) -> u32
    // With `DONE` the promise is made, and all else is as before.
    ensures promised { result ≡ DONE → HasServed (ModelRequest.Leaves op reply) ModelReply.Done
        (handle_in slot.old) (handle_in slot.new) }
    // With `LEAVES_NOT` a told step breaks the promise.
    ensures broken { result ≡ LEAVES_NOT → HasServed (ModelRequest.Leaves op reply)
        ModelReply.LeavesNot (handle_in slot.old) (handle_in slot.new) }
    // The status is `UNFIT` exactly where the slot has neither a check of a model nor a caller whose
    // calls a model judges.
    ensures unfit { (result ≡ UNFIT) ↔
        ¬ MayServe (ModelRequest.Leaves op reply) (handle_in slot.old) }
    // With each status but `DONE` the handle is as it was.
    ensures unchanged { ¬ (result ≡ DONE) → handle_in slot.new ≡ handle_in slot.old }
    // The status is `DONE`, `LEAVES_NOT`, `NO_MEMORY` or `UNFIT`.
    ensures ends { (result ≡ DONE) ⊎ (result ≡ LEAVES_NOT) ⊎ (result ≡ NO_MEMORY)
        ⊎ (result ≡ UNFIT) }
{
    let Some(reply) = serve(alloc, slot, ModelRequest::Leaves(op, reply)) else {
        return UNFIT;
    };
    match reply {
        ModelReply::Done => DONE,
        ModelReply::LeavesNot => LEAVES_NOT,
        _ => NO_MEMORY,
    }
}

/// Goes on with the check, or with the judgement of the published call of a caller, by at most so
/// many steps.
#[unsafe(no_mangle)]
pub extern "C" fn selfcheck_model_next(
    alloc: Global,
    slot: &mut Slot,
    steps: u64,
    question: &mut ModelQuestion,
) -> u32
    // With `LEGAL` the history has an order that is legal for each object that agrees with what was
    // told. A caller's reply is delivered, and it is between two calls.
    ensures legal { result ≡ LEGAL → HasServed (ModelRequest.GoOn steps)
        (ModelReply.Said ModelAnswer.Legal) (handle_in slot.old) (handle_in slot.new) }
    // With `ILLEGAL` no object that agrees with what was told has a legal order of the history. A
    // caller makes no further call.
    ensures illegal { result ≡ ILLEGAL → HasServed (ModelRequest.GoOn steps)
        (ModelReply.Said ModelAnswer.Illegal) (handle_in slot.old) (handle_in slot.new) }
    // With `ASK` the question has a state and an operation of the history whose step wasn't told.
    ensures ask { result ≡ ASK → HasServed (ModelRequest.GoOn steps)
        (ModelReply.Said (ModelAnswer.Ask question.new.state question.new.op))
        (handle_in slot.old) (handle_in slot.new) }
    // With `PAUSED` what is left to try has become less by as many as there are steps.
    ensures paused { result ≡ PAUSED → HasServed (ModelRequest.GoOn steps)
        (ModelReply.Said ModelAnswer.Paused) (handle_in slot.old) (handle_in slot.new) }
    // With `NO_MEMORY` the history and what was told are as before, and a further call goes on.
    ensures no_memory { result ≡ NO_MEMORY → HasServed (ModelRequest.GoOn steps)
        ModelReply.NoMemory (handle_in slot.old) (handle_in slot.new) }
    // The status is `UNFIT` exactly where the slot has neither a check of a model nor a caller whose
    // call is published and isn't judged.
    ensures unfit { (result ≡ UNFIT) ↔ ¬ MayServe (ModelRequest.GoOn steps) (handle_in slot.old) }
    // With `UNFIT` the handle is as it was.
    ensures unchanged { result ≡ UNFIT → handle_in slot.new ≡ handle_in slot.old }
    // With each status but `ASK` the question is as it was.
    ensures unasked { ¬ (result ≡ ASK) → question.new ≡ question.old }
    // The status is `LEGAL`, `ILLEGAL`, `ASK`, `PAUSED`, `NO_MEMORY` or `UNFIT`.
    ensures ends { (result ≡ LEGAL) ⊎ (result ≡ ILLEGAL) ⊎ (result ≡ ASK) ⊎ (result ≡ PAUSED)
        ⊎ (result ≡ NO_MEMORY) ⊎ (result ≡ UNFIT) }
{
    let Some(reply) = serve(alloc, slot, ModelRequest::GoOn(steps)) else {
        return UNFIT;
    };
    let ModelReply::Said(said) = reply else {
        return NO_MEMORY;
    };
    match said {
        ModelAnswer::Legal => LEGAL,
        ModelAnswer::Illegal => ILLEGAL,
        ModelAnswer::Ask(state, op) => {
            *question = ModelQuestion { state, op };
            ASK
        }
        ModelAnswer::Paused => PAUSED,
    }
}

/// Tells a step of the model, to a check or to a caller whose calls a model judges: at this state the
/// operation leads to the state `next`, and has this reply.
#[unsafe(no_mangle)]
pub extern "C" fn selfcheck_model_tell(
    alloc: Global,
    slot: &mut Slot,
    state: u32,
    op: u32,
    next: u32,
    reply: u32,
) -> u32
    // With `DONE` the step is told, and all else is as before.
    ensures told { result ≡ DONE → HasServed
        (ModelRequest.Tell (record { state = state; op = op; next = next; reply = reply }))
        ModelReply.Done (handle_in slot.old) (handle_in slot.new) }
    // With `CONTRADICTS` another step was told there.
    ensures contradicts { result ≡ CONTRADICTS → HasServed
        (ModelRequest.Tell (record { state = state; op = op; next = next; reply = reply }))
        ModelReply.Contradicts (handle_in slot.old) (handle_in slot.new) }
    // With `LEAVES_NOT` the step breaks a promise.
    ensures broken { result ≡ LEAVES_NOT → HasServed
        (ModelRequest.Tell (record { state = state; op = op; next = next; reply = reply }))
        ModelReply.LeavesNot (handle_in slot.old) (handle_in slot.new) }
    // The status is `UNFIT` exactly where the slot has neither a check of a model nor a caller whose
    // calls a model judges.
    ensures unfit { (result ≡ UNFIT) ↔ ¬ MayServe
        (ModelRequest.Tell (record { state = state; op = op; next = next; reply = reply }))
        (handle_in slot.old) }
    // With each status but `DONE` the handle is as it was.
    ensures unchanged { ¬ (result ≡ DONE) → handle_in slot.new ≡ handle_in slot.old }
    // The status is `DONE`, `CONTRADICTS`, `LEAVES_NOT`, `NO_MEMORY` or `UNFIT`.
    ensures ends { (result ≡ DONE) ⊎ (result ≡ CONTRADICTS) ⊎ (result ≡ LEAVES_NOT)
        ⊎ (result ≡ NO_MEMORY) ⊎ (result ≡ UNFIT) }
{
    let step = ModelStep {
        state,
        op,
        next,
        reply,
    };
    let Some(reply) = serve(alloc, slot, ModelRequest::Tell(step)) else {
        return UNFIT;
    };
    match reply {
        ModelReply::Done => DONE,
        ModelReply::Contradicts => CONTRADICTS,
        ModelReply::LeavesNot => LEAVES_NOT,
        _ => NO_MEMORY,
    }
}

/// Writes the legal order that the check has found: for each place the caller and the number of its
/// call. `written` is the number of places, even where the buffer can't hold them and nothing is
/// written.
#[unsafe(no_mangle)]
pub extern "C" fn selfcheck_model_order(
    alloc: Global,
    slot: &mut Slot,
    order: &mut [PlacedCall],
    written: &mut usize,
) -> u32
    // With `DONE` the places fit the buffer.
    ensures held { result ≡ DONE → written.new ≤ length order.new }
    // With `DONE` the first `written` entries of the buffer are the calls of an order that is legal
    // for each object that agrees with what was told.
    ensures order { result ≡ DONE → IsModels
        (IsOrderOf (map named_call (take written.new order.new))) (handle_in slot.old) }
    // With `DONE` the entries of the buffer after the first `written` are as they were.
    ensures rest { result ≡ DONE → drop written.new order.new ≡ drop written.new order.old }
    // With `NO_ROOM` the count `written` is greater than the length of the buffer.
    ensures no_room { result ≡ NO_ROOM → length order.old < written.new }
    // With `NO_ROOM` there is such an order, of `written` places.
    ensures unheld { result ≡ NO_ROOM → (calls : List Call)
        × IsModels (IsOrderOf calls) (handle_in slot.old) × (length calls ≡ written.new) }
    // With `UNFIT` the slot has no check of a model that has found an order of its history.
    ensures unfit { result ≡ UNFIT → ¬ IsModels HasOrder (handle_in slot.old) }
    // With each status but `DONE` the buffer is as it was.
    ensures unwritten { ¬ (result ≡ DONE) → order.new ≡ order.old }
    // With each status but `DONE` and `NO_ROOM` the count `written` is as it was.
    ensures uncounted { ¬ (result ≡ DONE) → ¬ (result ≡ NO_ROOM) → written.new ≡ written.old }
    // The slot's handle is as it was.
    ensures kept { handle_in slot.new ≡ handle_in slot.old }
    // The status is `DONE`, `NO_MEMORY`, `NO_ROOM` or `UNFIT`.
    ensures ends { (result ≡ DONE) ⊎ (result ≡ NO_MEMORY) ⊎ (result ≡ NO_ROOM) ⊎ (result ≡ UNFIT) }
{
    match model_order(alloc, slot) {
        Ok(Some(calls)) => {
            *written = calls.len();
            if put_calls(order, &calls) {
                DONE
            } else {
                NO_ROOM
            }
        }
        Ok(None) => UNFIT,
        Err(NoMemory) => NO_MEMORY,
    }
}

/// Writes into a buffer the evidence of the check: the text of its history's book and of what was
/// told of the model, which is judged without the model. `written` is the text's length, even where
/// the buffer can't hold the text and nothing is written.
#[unsafe(no_mangle)]
pub extern "C" fn selfcheck_model_evidence(
    alloc: Global,
    slot: &mut Slot,
    buffer: &mut [u8],
    written: &mut usize,
) -> u32
    // With `DONE` the text fits the buffer.
    ensures held { result ≡ DONE → written.new ≤ length buffer.new }
    // With `DONE` the first `written` bytes of the buffer are a text that has the history's book,
    // and tells what was told of the model, and nothing else.
    ensures evidence { result ≡ DONE → IsModels (IsEvidenceOf (take written.new buffer.new))
        (handle_in slot.old) }
    // With `DONE` the bytes of the buffer after the first `written` are as they were.
    ensures rest { result ≡ DONE → drop written.new buffer.new ≡ drop written.new buffer.old }
    // With `NO_ROOM` the count `written` is greater than the length of the buffer.
    ensures no_room { result ≡ NO_ROOM → length buffer.old < written.new }
    // With `NO_ROOM` there is such a text, `written` bytes long.
    ensures unheld { result ≡ NO_ROOM → (wanted : List ℕ)
        × IsModels (IsEvidenceOf wanted) (handle_in slot.old) × (length wanted ≡ written.new) }
    // With `UNFIT` the slot has no check of a model.
    ensures unfit { result ≡ UNFIT → ¬ IsModels (λ _. Unit {0}) (handle_in slot.old) }
    // With each status but `DONE` the buffer is as it was.
    ensures unwritten { ¬ (result ≡ DONE) → buffer.new ≡ buffer.old }
    // With each status but `DONE` and `NO_ROOM` the count `written` is as it was.
    ensures uncounted { ¬ (result ≡ DONE) → ¬ (result ≡ NO_ROOM) → written.new ≡ written.old }
    // The slot's handle is as it was.
    ensures kept { handle_in slot.new ≡ handle_in slot.old }
    // The status is `DONE`, `NO_MEMORY`, `NO_ROOM` or `UNFIT`.
    ensures ends { (result ≡ DONE) ⊎ (result ≡ NO_MEMORY) ⊎ (result ≡ NO_ROOM) ⊎ (result ≡ UNFIT) }
{
    match model_evidence(alloc, slot) {
        Ok(Some(text)) => {
            *written = text.len();
            if put(buffer, &text) { DONE } else { NO_ROOM }
        }
        Ok(None) => UNFIT,
        Err(NoMemory) => NO_MEMORY,
    }
}

/// Opens a table for this many callers, 1 to 16, with 1 to 256 calls each, whose calls a model is to
/// judge, and puts its handle into the slot, which is to have none.
#[unsafe(no_mangle)]
pub extern "C" fn selfcheck_model_table(
    alloc: Global,
    callers: u32,
    calls: u64,
    slot: &mut Slot,
) -> u32
    // With `DONE` the slot has the handle of a table with these callers and calls, which has given no
    // caller.
    ensures opened { result ≡ DONE → IsOpenedTable callers calls (handle_in slot.new) }
    // With `DONE` the callers and the calls are within the limits, and the slot had no handle.
    ensures fit { result ≡ DONE → IsSizedTable callers calls × (handle_in slot.old ≡ None) }
    // With `UNFIT` the callers or the calls aren't within the limits, or the slot had a handle.
    ensures unfit { result ≡ UNFIT →
        ¬ (IsSizedTable callers calls × (handle_in slot.old ≡ None)) }
    // With each status but `DONE` the slot is as it was.
    ensures unchanged { ¬ (result ≡ DONE) → slot.new ≡ slot.old }
    // The status is `DONE`, `NO_MEMORY` or `UNFIT`.
    ensures ends { (result ≡ DONE) ⊎ (result ≡ NO_MEMORY) ⊎ (result ≡ UNFIT) }
{
    match open_modelled(alloc, callers, calls, slot) {
        Ok(true) => DONE,
        Ok(false) => UNFIT,
        Err(NoMemory) => NO_MEMORY,
    }
}

/// Puts the next caller of a table, which is to have callers left, into the slot, which is to have no
/// handle: one whose calls a model judges, of which nothing was told but that its initial state has
/// the number 0.
#[unsafe(no_mangle)]
pub extern "C" fn selfcheck_model_caller(alloc: Global, table: &mut Slot, slot: &mut Slot) -> u32
    // With `DONE` the table had a caller left to give, and the slot had no handle.
    ensures fit { result ≡ DONE → MayGive (handle_in table.old) × (handle_in slot.old ≡ None) }
    // With `DONE` the slot has the table's next caller, which has made no call, and the table gives
    // the caller after it next.
    ensures given { result ≡ DONE →
        HasGiven CallerRole.Modelled (handle_in table.old) (handle_in table.new)
        (handle_in slot.new) }
    // With `UNFIT` there is no table with a caller left to give, or the slot had a handle.
    ensures unfit { result ≡ UNFIT
        → ¬ (MayGive (handle_in table.old) × (handle_in slot.old ≡ None)) }
    // With each status but `DONE` the table and the slot are as they were.
    ensures unchanged { ¬ (result ≡ DONE) →
        (handle_in table.new ≡ handle_in table.old) × (slot.new ≡ slot.old) }
    // The status is `DONE`, `NO_MEMORY` or `UNFIT`.
    ensures ends { (result ≡ DONE) ⊎ (result ≡ NO_MEMORY) ⊎ (result ≡ UNFIT) }
{
    match give(alloc, CallerRole::Modelled, table, slot) {
        Ok(true) => DONE,
        Ok(false) => UNFIT,
        Err(NoMemory) => NO_MEMORY,
    }
}

/// Announces a call of the slot's caller, whose calls a model judges, and which is to be between two
/// calls and have one left, with this operation.
#[unsafe(no_mangle)]
pub extern "C" fn selfcheck_model_announce(alloc: Global, slot: &mut Slot, op: u32) -> u32
    // The status is `DONE` exactly where the slot has a caller whose calls a model judges, that is
    // between two calls and has a call left.
    ensures when { (result ≡ DONE) ↔ IsModelled MayAnnounce (handle_in slot.old) }
    // With `DONE` the slot's caller has announced a call with this operation.
    ensures begun { result ≡ DONE
        → AreModelled (HasBegun op) (handle_in slot.old) (handle_in slot.new) }
    // With each status but `DONE` the handle is as it was.
    ensures unchanged { ¬ (result ≡ DONE) → handle_in slot.new ≡ handle_in slot.old }
    // The status is `DONE` or `UNFIT`.
    ensures ends { (result ≡ DONE) ⊎ (result ≡ UNFIT) }
{
    if announce_modelled(alloc, slot, op) {
        DONE
    } else {
        UNFIT
    }
}

/// Hands in the object's reply to the call that the slot's caller has announced, and publishes the
/// call, which is to be judged by `selfcheck_model_next`.
#[unsafe(no_mangle)]
pub extern "C" fn selfcheck_model_answered(alloc: Global, slot: &mut Slot, reply: u32) -> u32
    // With `DONE` the call is published with this reply, and the book at the cut that its caller has
    // seen since is gathered and is to be judged.
    ensures judging { result ≡ DONE →
        AreModelled (IsToBeJudged reply) (handle_in slot.old) (handle_in slot.new) }
    // With `NO_MEMORY` the call is published with this reply, nobody judges it, and its caller makes
    // no further call.
    ensures halted { result ≡ NO_MEMORY →
        AreModelled (IsHalted reply) (handle_in slot.old) (handle_in slot.new) }
    // The status is `UNFIT` exactly where the slot has no caller whose calls a model judges, with an
    // announced call whose reply isn't handed in yet.
    ensures unfit { (result ≡ UNFIT) ↔ ¬ IsModelled HasAnnounced (handle_in slot.old) }
    // With `UNFIT` the handle is as it was.
    ensures unchanged { result ≡ UNFIT → handle_in slot.new ≡ handle_in slot.old }
    // The status is `DONE`, `NO_MEMORY` or `UNFIT`.
    ensures ends { (result ≡ DONE) ⊎ (result ≡ NO_MEMORY) ⊎ (result ≡ UNFIT) }
{
    let Some(answer) = answered_modelled(alloc, slot, reply) else {
        return UNFIT;
    };
    match answer {
        Ok(()) => DONE,
        Err(NoMemory) => NO_MEMORY,
    }
}
