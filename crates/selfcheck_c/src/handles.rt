ghost use Rattle.std.specs.Prelude.{◌≡◌, ◌↔◌, ◌⊎◌, ℕ, ◌<◌, ◌≤◌, List, None, IsTrue, is_some, drop, length, take};
ghost use Rattle.book_base.specs.OperationWord.{joined};
ghost use Rattle.call_handles.specs.Callers.{IsBetweenCalls, MayAnnounce, HasAnnounced};
ghost use Rattle.call_handles.specs.Monitors.{MayJudge};
ghost use Rattle.call_handles.specs.Slots.{handle_in, IsSized, IsOpened, MayGive, HasGiven, IsCallers, Begins, Ends, Publishes, BecomesMonitor, IsMonitors, Judges, HasWitness, Witnesses};
ghost use Rattle.selfcheck_c.specs.declared.TheConstants.{LEGAL, ILLEGAL, NO_MEMORY, NO_ROOM};

use crate::buffer::put;
use crate::{ILLEGAL, LEGAL, NO_MEMORY, NO_ROOM};
use book_base::{NoMemory, join};
use call_handles::{
    CallerRole, HandleVerdict, Slot, announce, answered, close, give, judge, open, publish, watch,
    witness,
};
use std::alloc::Global;

/// The call did what it is for; where a reply was handed in and its call judged, the reply is
/// delivered.
pub const DONE: u32 = 0;
/// The call can't be made with what it was given, and nothing has changed.
pub const UNFIT: u32 = 9;

/// Opens a table for this many callers, 1 to 16, with 1 to 256 calls each, which are judged by the
/// kind of this name, and puts its handle into the slot, which is to have none.
#[unsafe(no_mangle)]
pub extern "C" fn selfcheck_open(
    alloc: Global,
    kind: &[u8],
    callers: u32,
    calls: u64,
    slot: &mut Slot,
) -> u32
    // With `DONE` there is a kind of this name, the callers are 1 to 16 and the calls 1 to 256, and
    // the slot had no handle.
    ensures fit { result ≡ DONE → IsSized kind.now callers calls × (handle_in slot.old ≡ None) }
    // With `DONE` the slot has the handle of a table of this kind with these callers and calls,
    // which has given no caller.
    ensures opened { result ≡ DONE → IsOpened kind.now callers calls (handle_in slot.new) }
    // With `UNFIT` there is no kind of this name, the callers or the calls aren't within the
    // limits, or the slot had a handle.
    ensures unfit { result ≡ UNFIT →
        ¬ (IsSized kind.now callers calls × (handle_in slot.old ≡ None)) }
    // With each status but `DONE` the slot is as it was.
    ensures unchanged { ¬ (result ≡ DONE) → slot.new ≡ slot.old }
    // The status is `DONE`, `NO_MEMORY` or `UNFIT`.
    ensures ends { (result ≡ DONE) ⊎ (result ≡ NO_MEMORY) ⊎ (result ≡ UNFIT) }
{
    match open(alloc, kind, callers, calls, slot) {
        Ok(true) => DONE,
        Ok(false) => UNFIT,
        Err(NoMemory) => NO_MEMORY,
    }
}

/// Puts the handle of the next caller of a table, which is to have callers left, into the slot,
/// which is to have no handle.
#[unsafe(no_mangle)]
pub extern "C" fn selfcheck_caller(alloc: Global, table: &mut Slot, slot: &mut Slot) -> u32
    // With `DONE` the table had a caller left to give, and the slot had no handle.
    ensures fit { result ≡ DONE → MayGive (handle_in table.old) × (handle_in slot.old ≡ None) }
    // With `DONE` the slot has the handle of the table's next caller, which has made no call, and
    // the table gives the caller after it next.
    ensures given { result ≡ DONE →
        HasGiven CallerRole.Caller (handle_in table.old) (handle_in table.new)
        (handle_in slot.new) }
    // With `UNFIT` there is no table with a caller left to give, or the slot had a handle.
    ensures unfit { result ≡ UNFIT
        → ¬ (MayGive (handle_in table.old) × (handle_in slot.old ≡ None)) }
    // With each status but `DONE` the table and the slot are as they were.
    ensures unchanged { ¬ (result ≡ DONE) →
        (handle_in table.new ≡ handle_in table.old) × (slot.new ≡ slot.old) }
    // The status is `DONE`, `NO_MEMORY` or `UNFIT`.
    ensures ends { (result ≡ DONE) ⊎ (result ≡ NO_MEMORY) ⊎ (result ≡ UNFIT) }
{
    match give(alloc, CallerRole::Caller, table, slot) {
        Ok(true) => DONE,
        Ok(false) => UNFIT,
        Err(NoMemory) => NO_MEMORY,
    }
}

/// Puts the handle of the next caller of a table, which is to have callers left, as a monitor into
/// the slot, which is to have no handle.
#[unsafe(no_mangle)]
pub extern "C" fn selfcheck_monitor(alloc: Global, table: &mut Slot, slot: &mut Slot) -> u32
    // With `DONE` the table had a caller left to give, and the slot had no handle.
    ensures fit { result ≡ DONE → MayGive (handle_in table.old) × (handle_in slot.old ≡ None) }
    // With `DONE` the slot has the handle of the table's next caller, as a monitor that has made no
    // round, and the table gives the caller after it next.
    ensures given { result ≡ DONE →
        HasGiven CallerRole.Monitor (handle_in table.old) (handle_in table.new)
        (handle_in slot.new) }
    // With `UNFIT` there is no table with a caller left to give, or the slot had a handle.
    ensures unfit { result ≡ UNFIT
        → ¬ (MayGive (handle_in table.old) × (handle_in slot.old ≡ None)) }
    // With each status but `DONE` the table and the slot are as they were.
    ensures unchanged { ¬ (result ≡ DONE) →
        (handle_in table.new ≡ handle_in table.old) × (slot.new ≡ slot.old) }
    // The status is `DONE`, `NO_MEMORY` or `UNFIT`.
    ensures ends { (result ≡ DONE) ⊎ (result ≡ NO_MEMORY) ⊎ (result ≡ UNFIT) }
{
    match give(alloc, CallerRole::Monitor, table, slot) {
        Ok(true) => DONE,
        Ok(false) => UNFIT,
        Err(NoMemory) => NO_MEMORY,
    }
}

/// Makes the slot's caller, which is to be between two calls, a monitor of its table. So a table
/// whose callers are all given has a monitor too, as soon as one of them has made its calls.
#[unsafe(no_mangle)]
pub extern "C" fn selfcheck_watch(alloc: Global, slot: &mut Slot) -> u32
    // The status is `DONE` exactly where the slot has a caller that is between two calls.
    ensures when { (result ≡ DONE) ↔ IsCallers IsBetweenCalls (handle_in slot.old) }
    // With `DONE` the slot has this caller as a monitor of the same table and kind, which has made
    // no round.
    ensures watching { result ≡ DONE → BecomesMonitor (handle_in slot.old) (handle_in slot.new) }
    // With each status but `DONE` the handle is as it was.
    ensures unchanged { ¬ (result ≡ DONE) → handle_in slot.new ≡ handle_in slot.old }
    // The status is `DONE` or `UNFIT`.
    ensures ends { (result ≡ DONE) ⊎ (result ≡ UNFIT) }
{
    if watch(alloc, slot) { DONE } else { UNFIT }
}

/// Announces a call of the slot's caller, which is to be between two calls and have one left, with
/// the operation word of this low and this high word.
#[unsafe(no_mangle)]
pub extern "C" fn selfcheck_announce(alloc: Global, slot: &mut Slot, low: u64, high: u64) -> u32
    // The status is `DONE` exactly where the slot has a caller that is between two calls and has a
    // call left.
    ensures when { (result ≡ DONE) ↔ IsCallers MayAnnounce (handle_in slot.old) }
    // With `DONE` the slot's caller has announced a call with this operation word.
    ensures begun { result ≡ DONE
        → Begins (joined low high) (handle_in slot.old) (handle_in slot.new) }
    // With each status but `DONE` the handle is as it was.
    ensures unchanged { ¬ (result ≡ DONE) → handle_in slot.new ≡ handle_in slot.old }
    // The status is `DONE` or `UNFIT`.
    ensures ends { (result ≡ DONE) ⊎ (result ≡ UNFIT) }
{
    if announce(alloc, slot, join(low, high)) {
        DONE
    } else {
        UNFIT
    }
}

/// Hands in the object's reply to the call that the slot's caller has announced, and judges the
/// call. With `NO_MEMORY` nobody has checked the reply.
#[unsafe(no_mangle)]
pub extern "C" fn selfcheck_answered(alloc: Global, slot: &mut Slot, reply: u64) -> u32
    // With `DONE` the call has this reply and is judged: the book at the cut that its caller has
    // seen has a legal order.
    ensures delivered { result ≡ DONE →
        Ends reply HandleVerdict.Legal (handle_in slot.old) (handle_in slot.new) }
    // With `ILLEGAL` the call has this reply and is judged: the book at the cut that its caller has
    // seen has no legal order.
    ensures illegal { result ≡ ILLEGAL →
        Ends reply HandleVerdict.Illegal (handle_in slot.old) (handle_in slot.new) }
    // With `NO_MEMORY` the call is published with this reply, nobody has judged it, and its caller
    // makes no further call.
    ensures unjudged { result ≡ NO_MEMORY →
        Ends reply HandleVerdict.Unjudged (handle_in slot.old) (handle_in slot.new) }
    // The status is `UNFIT` exactly where the slot has no caller with an announced call whose reply
    // isn't handed in yet.
    ensures unfit { (result ≡ UNFIT) ↔ ¬ IsCallers HasAnnounced (handle_in slot.old) }
    // With `UNFIT` the handle is as it was.
    ensures unchanged { result ≡ UNFIT → handle_in slot.new ≡ handle_in slot.old }
    // The status is `DONE`, `ILLEGAL`, `NO_MEMORY` or `UNFIT`.
    ensures ends { (result ≡ DONE) ⊎ (result ≡ ILLEGAL) ⊎ (result ≡ NO_MEMORY) ⊎ (result ≡ UNFIT) }
{
    match answered(alloc, slot, reply) {
        Some(HandleVerdict::Legal) => DONE,
        Some(HandleVerdict::Illegal) => ILLEGAL,
        Some(HandleVerdict::Unjudged) => NO_MEMORY,
        None => UNFIT,
    }
}

/// Hands in the object's reply to the call that the slot's caller has announced, and publishes the
/// call. It judges nothing: the judgement is left to the table's monitors.
#[unsafe(no_mangle)]
pub extern "C" fn selfcheck_publish(alloc: Global, slot: &mut Slot, reply: u64) -> u32
    // The status is `DONE` exactly where the slot has a caller with an announced call whose reply
    // isn't handed in yet.
    ensures when { (result ≡ DONE) ↔ IsCallers HasAnnounced (handle_in slot.old) }
    // With `DONE` the call is published with this reply, and nobody has judged it.
    ensures published { result ≡ DONE → Publishes reply (handle_in slot.old) (handle_in slot.new) }
    // With each status but `DONE` the handle is as it was.
    ensures unchanged { ¬ (result ≡ DONE) → handle_in slot.new ≡ handle_in slot.old }
    // The status is `DONE` or `UNFIT`.
    ensures ends { (result ≡ DONE) ⊎ (result ≡ UNFIT) }
{
    if publish(alloc, slot, reply) {
        DONE
    } else {
        UNFIT
    }
}

/// Makes a round of the slot's monitor, which is to have found no error yet: judges the published
/// records. With `NO_MEMORY` nothing is judged, and a further round may be made.
#[unsafe(no_mangle)]
pub extern "C" fn selfcheck_judge(alloc: Global, slot: &mut Slot) -> u32
    // With `LEGAL` the slot's monitor has made a round, and the book at its cut has a legal order.
    ensures legal { result ≡ LEGAL →
        Judges HandleVerdict.Legal (handle_in slot.old) (handle_in slot.new) }
    // With `ILLEGAL` the slot's monitor has made a round, and the book at its cut has no legal
    // order and is its witness.
    ensures illegal { result ≡ ILLEGAL →
        Judges HandleVerdict.Illegal (handle_in slot.old) (handle_in slot.new) }
    // With `NO_MEMORY` the slot's monitor has scanned once, judged nothing, and has no witness.
    ensures unjudged { result ≡ NO_MEMORY →
        Judges HandleVerdict.Unjudged (handle_in slot.old) (handle_in slot.new) }
    // The status is `UNFIT` exactly where the slot has no monitor, or one that has made an illegal
    // round.
    ensures unfit { (result ≡ UNFIT) ↔ ¬ IsMonitors MayJudge (handle_in slot.old) }
    // With `UNFIT` the handle is as it was.
    ensures unchanged { result ≡ UNFIT → handle_in slot.new ≡ handle_in slot.old }
    // The status is `LEGAL`, `ILLEGAL`, `NO_MEMORY` or `UNFIT`.
    ensures ends { (result ≡ LEGAL) ⊎ (result ≡ ILLEGAL) ⊎ (result ≡ NO_MEMORY) ⊎ (result ≡ UNFIT) }
{
    match judge(alloc, slot) {
        Some(HandleVerdict::Legal) => LEGAL,
        Some(HandleVerdict::Illegal) => ILLEGAL,
        Some(HandleVerdict::Unjudged) => NO_MEMORY,
        None => UNFIT,
    }
}

/// Writes into a buffer the text of the book of the last call of the slot's caller, where this call
/// was an error, or of the illegal round of the slot's monitor. `written` is the text's length,
/// even where the buffer can't hold the text and nothing is written.
#[unsafe(no_mangle)]
pub extern "C" fn selfcheck_witness(
    alloc: Global,
    slot: &mut Slot,
    buffer: &mut [u8],
    written: &mut usize,
) -> u32
    // With `DONE` the text fits the buffer.
    ensures held { result ≡ DONE → written.new ≤ length buffer.new }
    // With `DONE` the first `written` bytes of the buffer are the text of the book of the caller's
    // error, or of the monitor's illegal round. This book has no legal order.
    ensures text { result ≡ DONE → Witnesses (handle_in slot.old) (take written.new buffer.new) }
    // With `DONE` the bytes of the buffer after the first `written` are as they were.
    ensures rest { result ≡ DONE → drop written.new buffer.new ≡ drop written.new buffer.old }
    // With `NO_ROOM` the count `written` is greater than the length of the buffer.
    ensures no_room { result ≡ NO_ROOM → length buffer.old < written.new }
    // With `NO_ROOM` there is a text, `written` bytes long, of the book of the caller's error or of
    // the monitor's illegal round.
    ensures unheld { result ≡ NO_ROOM → (wanted : List ℕ) × Witnesses (handle_in slot.old) wanted
        × (length wanted ≡ written.new) }
    // With `UNFIT` the slot has neither a caller whose last call was an error nor a monitor that
    // has made an illegal round.
    ensures unfit { result ≡ UNFIT → ¬ HasWitness (handle_in slot.old) }
    // With each status but `DONE` the buffer is as it was.
    ensures unwritten { ¬ (result ≡ DONE) → buffer.new ≡ buffer.old }
    // With each status but `DONE` and `NO_ROOM` the count `written` is as it was.
    ensures uncounted { ¬ (result ≡ DONE) → ¬ (result ≡ NO_ROOM) → written.new ≡ written.old }
    // The slot's handle is as it was.
    ensures kept { handle_in slot.new ≡ handle_in slot.old }
    // The status is `DONE`, `NO_MEMORY`, `NO_ROOM` or `UNFIT`.
    ensures ends { (result ≡ DONE) ⊎ (result ≡ NO_MEMORY) ⊎ (result ≡ NO_ROOM) ⊎ (result ≡ UNFIT) }
{
    match witness(alloc, slot) {
        Ok(Some(text)) => {
            *written = text.len();
            if put(buffer, &text) { DONE } else { NO_ROOM }
        }
        Ok(None) => UNFIT,
        Err(NoMemory) => NO_MEMORY,
    }
}

/// Drops the slot's handle. A call that is announced stays unanswered.
#[unsafe(no_mangle)]
pub extern "C" fn selfcheck_drop(alloc: Global, slot: &mut Slot) -> u32
    // The status is `DONE` exactly where the slot had a handle.
    ensures when { (result ≡ DONE) ↔ IsTrue (is_some (handle_in slot.old)) }
    // The slot has no handle afterwards.
    ensures gone { handle_in slot.new ≡ None }
    // The status is `DONE` or `UNFIT`.
    ensures ends { (result ≡ DONE) ⊎ (result ≡ UNFIT) }
{
    if close(alloc, slot) { DONE } else { UNFIT }
}
