ghost use Rattle.std.specs.Prelude.{◌≢◌, ℕ, ◌<◌, length, OnOk, IfOk, IfSome, IfNone, IsTrue, List, [], ◌∷◌};
ghost use Rattle.book_base.specs.declared.TheConstants.{MAX_ROOM};
ghost use Rattle.streams.specs.Stream.{StreamEvent};
ghost use Rattle.streams.specs.StreamOrder.{StreamPlace, IsAmong};
ghost use Rattle.residue_laws.specs.Residue.{Configuration, IsInResidue};
ghost use Rattle.late_residue.specs.Reached.{Has, description_of};
ghost use Rattle.late_residue.specs.Known.{MayHaveReply};
ghost use Rattle.late_residue.specs.Meaning.{Means, IsWider};
ghost use Rattle.late_residue.specs.Placing.{AreOf, IsPlacedAt, MayBePlaced, Hides, IsWritten, IsSound, IsReachedBy, with_call};
ghost use Rattle.late_residue.specs.LateOnes.{AreOpen};

use crate::open_call::OpenCall;
use crate::overwriting::Overwriting;
use crate::reached::{Placed, Reached};
use book_base::{GrowsByOne, NoMemory};
use std::alloc::Global;

/// The description after an open call is placed, or `None` where it can't have the reply that the
/// object gives. Where it overwrites, others that overwrite may have come just before it.
pub fn expanded<O: Overwriting>(
    alloc: Global,
    object: &O,
    calls: &[OpenCall],
    from: &Reached,
    call: &OpenCall,
) -> Result<Option<Reached>, NoMemory>
    requires is_open { Has calls.now call.now }
    requires short { length from.now.list.items < MAX_ROOM }
    requires lacking { AreOf (description_of from.now).placed call.now.call → ⊥ }
    ensures means { IfOk result (λ found. IfSome found (λ after. (at : Configuration)
        → Means (description_of from.now) at → (IsPlacedAt at call.now.call → ⊥)
        → Means (description_of after) (with_call (O.spec object.now).next at call.now))) }
    ensures hidden { IfOk result (λ found. IfSome found (λ after.
        IsTrue (O.writes object.now call.now.op) → (returning : ℕ) (at : Configuration)
        → Hides (O.spec object.now).next (O.writes object.now) calls.now returning
        (description_of from.now) at
        → MayBePlaced (O.spec object.now).next calls.now at call.now
        → Means (description_of after) (with_call (O.spec object.now).next at call.now))) }
    ensures sound { IfOk result (λ found. IfSome found (λ after. (stream : List StreamEvent)
        → AreOpen stream calls.now
        → IsSound (IsInResidue (O.spec object.now) stream) calls.now (description_of from.now)
        → IsSound (IsInResidue (O.spec object.now) stream) calls.now (description_of after))) }
    ensures none { IfOk result (λ found. IfNone found
        (MayHaveReply call.now ((O.spec object.now).next from.now.list.items call.now.op).1
        → ⊥)) }
{
    let Some(mut after) = from.after(alloc, object, call)? else {
        return Ok(None);
    };
    hide(alloc, object, calls, from, call, &mut after)?;
    Ok(Some(after))
}

/// Makes each open call optional that may be placed last and leaves the list, of those with a number
/// from `first` on.
pub fn settle<O: GrowsByOne>(
    alloc: Global,
    object: &O,
    calls: &[OpenCall],
    first: u64,
    one: &mut Reached,
) -> Result<(), NoMemory>
    ensures wider { OnOk result (IsWider (description_of one.old) (description_of one.new)) }
    ensures optional { OnOk result ((place : StreamPlace)
        → IsAmong (description_of one.old).optional place
        → IsAmong (description_of one.new).optional place) }
    ensures sound { OnOk result ((stream : List StreamEvent) → AreOpen stream calls.now
        → IsSound (IsInResidue (O.spec object.now) stream) calls.now (description_of one.old)
        → IsSound (IsInResidue (O.spec object.now) stream) calls.now (description_of one.new)) }
{
    if !one.is_short() {
        return Ok(());
    }
    for call in calls {
        settle_call(alloc, object, calls, first, call, one)?;
    }
    Ok(())
}

// Makes an open call optional where it may be placed last and leaves the list, and has a number from
// `first` on.
fn settle_call<O: GrowsByOne>(
    alloc: Global,
    object: &O,
    calls: &[OpenCall],
    first: u64,
    call: &OpenCall,
    one: &mut Reached,
) -> Result<(), NoMemory>
    requires is_open { Has calls.now call.now }
    requires short { length one.old.list.items < MAX_ROOM }
    ensures wider { OnOk result (IsWider (description_of one.old) (description_of one.new)) }
    ensures optional { OnOk result ((place : StreamPlace)
        → IsAmong (description_of one.old).optional place
        → IsAmong (description_of one.new).optional place) }
    ensures sound { OnOk result ((stream : List StreamEvent) → AreOpen stream calls.now
        → IsSound (IsInResidue (O.spec object.now) stream) calls.now (description_of one.old)
        → IsSound (IsInResidue (O.spec object.now) stream) calls.now (description_of one.new)) }
{
    if call.call < first || one.places(call.call) || one.has_known(call) {
        return Ok(());
    }
    let (reply, stays) = one.step(alloc, object, call.op)?;
    if !stays || !call.may_have(reply) {
        return Ok(());
    }
    one.allow(Placed {
        call: call.call,
        reply,
    })
}

// Where the call that is placed last overwrites, makes each other open call optional that overwrites
// and may be placed just before it.
fn hide<O: Overwriting>(
    alloc: Global,
    object: &O,
    calls: &[OpenCall],
    from: &Reached,
    last: &OpenCall,
    one: &mut Reached,
) -> Result<(), NoMemory>
    requires short { length from.now.list.items < MAX_ROOM }
    ensures wider { OnOk result (IsWider (description_of one.old) (description_of one.new)) }
    ensures optional { OnOk result ((place : StreamPlace)
        → IsAmong (description_of one.old).optional place
        → IsAmong (description_of one.new).optional place) }
    ensures hidden { OnOk result (IsTrue (O.writes object.now last.now.op) → (place : StreamPlace)
        → IsWritten (O.spec object.now).next (O.writes object.now) calls.now place
        → (place.call ≢ last.now.call) → (AreOf (description_of one.old).placed place.call → ⊥)
        → IsAmong (description_of one.new).optional place) }
    ensures sound { OnOk result ((stream : List StreamEvent) → AreOpen stream calls.now
        → IsSound (IsReachedBy (O.spec object.now) stream last.now) calls.now
        (description_of one.old)
        → IsSound (IsReachedBy (O.spec object.now) stream last.now) calls.now
        (description_of one.new)) }
{
    if !object.overwrites(last.op) {
        return Ok(());
    }
    for call in calls {
        hide_call(alloc, object, calls, from, last, call, one)?;
    }
    Ok(())
}

// Makes an open call optional where it overwrites and may be placed just before another one that
// overwrites, which is placed last.
fn hide_call<O: Overwriting>(
    alloc: Global,
    object: &O,
    calls: &[OpenCall],
    from: &Reached,
    last: &OpenCall,
    call: &OpenCall,
    one: &mut Reached,
) -> Result<(), NoMemory>
    requires is_open { Has calls.now call.now }
    requires short { length from.now.list.items < MAX_ROOM }
    requires last { IsTrue (O.writes object.now last.now.op) }
    ensures wider { OnOk result (IsWider (description_of one.old) (description_of one.new)) }
    ensures optional { OnOk result ((place : StreamPlace)
        → IsAmong (description_of one.old).optional place
        → IsAmong (description_of one.new).optional place) }
    ensures hidden { OnOk result ((place : StreamPlace)
        → IsWritten (O.spec object.now).next (O.writes object.now) (call.now ∷ []) place
        → (place.call ≢ last.now.call) → (AreOf (description_of one.old).placed place.call → ⊥)
        → IsAmong (description_of one.new).optional place) }
    ensures sound { OnOk result ((stream : List StreamEvent) → AreOpen stream calls.now
        → IsSound (IsReachedBy (O.spec object.now) stream last.now) calls.now
        (description_of one.old)
        → IsSound (IsReachedBy (O.spec object.now) stream last.now) calls.now
        (description_of one.new)) }
{
    if call.call == last.call || !object.overwrites(call.op) || one.places(call.call) {
        return Ok(());
    }
    let (reply, _) = from.step(alloc, object, call.op)?;
    if !call.may_have(reply) {
        return Ok(());
    }
    one.allow(Placed {
        call: call.call,
        reply,
    })
}
