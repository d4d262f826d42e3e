ghost use Rattle.std.specs.Prelude.{◌≡◌, ◌≢◌, ◌⊎◌, ℕ, ◌+◌, false, [], ◌∷◌, ◌<◌, ◌≤◌, List, length, slice_get, Some, IfOk, OnOk, IsTrue};
ghost use Rattle.book_base.specs.declared.TheConstants.{MAX_ROOM};
ghost use Rattle.residue_laws.specs.Residue.{Configuration};
ghost use Rattle.late_residue.specs.Description.{Description};
ghost use Rattle.late_residue.specs.Reached.{Has, Grows, description_of, descriptions_of};
ghost use Rattle.late_residue.specs.Meaning.{Means, AreMeant, Serves};
ghost use Rattle.late_residue.specs.Placing.{IsPlacedAt, MayBePlaced, IsTaken, Rests, Hides, SeesNothing, IsUnseenBy, LeadsTo, LeadsOn, with_call};
ghost use Rattle.late_residue.specs.LateOnes.{AreAdded, AreApart};

use crate::open_call::OpenCall;
use crate::overwriting::Overwriting;
use crate::reached::{Placed, Reached};
use crate::widening::{expanded, settle};
use book_base::{GrowsByOne, NoMemory};
use std::alloc::Global;

/// Places open calls at these descriptions, one after another, before a call returns with a reply,
/// and puts what is left after the return. The answer is whether there are no more descriptions than
/// the limit, and no list is too long.
pub fn close<O: Overwriting>(
    alloc: Global,
    object: &O,
    calls: &[OpenCall],
    returning: &OpenCall,
    reply: u64,
    ones: &mut Vec<Reached>,
    left: &mut Vec<Reached>,
    limit: usize,
) -> Result<bool, NoMemory>
    requires { (one : Description) → Has (descriptions_of ones.old.items) one
        → IsTaken (O.spec object.now).next returning.now reply (descriptions_of ones.old.items)
        (descriptions_of left.old.items) one }
    ensures added { IfOk result (λ all. AreAdded (O.spec object.now) calls.now returning.now reply []
        (descriptions_of ones.old.items) (descriptions_of left.old.items)
        (descriptions_of ones.new.items) (descriptions_of left.new.items)) }
    ensures closed { IfOk result (λ all. IsTrue all → (one : Description)
        → Has (descriptions_of ones.new.items) one
        → LeadsOn (O.spec object.now).next (O.writes object.now) calls.now returning.now reply
        (descriptions_of ones.new.items) (descriptions_of left.new.items) (length calls.now) one) }
    ensures beyond { IfOk result (λ all. all ≡ false
        → (limit < length (descriptions_of ones.new.items))
        ⊎ ((one : Description) × Has (descriptions_of ones.new.items) one
        × (MAX_ROOM ≤ length one.list))) }
{
    for k in 0..limit {
        if k >= ones.len() {
            return Ok(true);
        }
        if !expand(alloc, object, calls, returning, reply, ones, left, k)? {
            return Ok(false);
        }
    }
    Ok(ones.len() <= limit)
}

// Places each open call at the description at an index, and answers whether its list isn't too long
// for that.
fn expand<O: Overwriting>(
    alloc: Global,
    object: &O,
    calls: &[OpenCall],
    returning: &OpenCall,
    reply: u64,
    ones: &mut Vec<Reached>,
    left: &mut Vec<Reached>,
    k: usize,
) -> Result<bool, NoMemory>
    requires within { k < length ones.old.items }
    requires taken { (one : Description) → Has (descriptions_of ones.old.items) one
        → IsTaken (O.spec object.now).next returning.now reply (descriptions_of ones.old.items)
        (descriptions_of left.old.items) one }
    ensures added { IfOk result (λ all. AreAdded (O.spec object.now) calls.now returning.now reply []
        (descriptions_of ones.old.items) (descriptions_of left.old.items)
        (descriptions_of ones.new.items) (descriptions_of left.new.items)) }
    ensures leads { IfOk result (λ all. IsTrue all → (one : Description)
        → slice_get (descriptions_of ones.old.items) k ≡ Some one
        → LeadsOn (O.spec object.now).next (O.writes object.now) calls.now returning.now reply
        (descriptions_of ones.new.items) (descriptions_of left.new.items) (length calls.now) one) }
    ensures long { IfOk result (λ all. all ≡ false → (one : Description)
        × Has (descriptions_of ones.new.items) one × (MAX_ROOM ≤ length one.list)) }
{
    if !ones[k].is_short() {
        return Ok(false);
    }
    for call in calls {
        place(alloc, object, calls, returning, reply, ones, left, k, call)?;
    }
    Ok(true)
}

// Places an open call at the description at an index, where it may be placed there.
fn place<O: Overwriting>(
    alloc: Global,
    object: &O,
    calls: &[OpenCall],
    returning: &OpenCall,
    reply: u64,
    ones: &mut Vec<Reached>,
    left: &mut Vec<Reached>,
    k: usize,
    call: &OpenCall,
) -> Result<(), NoMemory>
    requires within { k < length ones.old.items }
    requires is_open { Has calls.now call.now }
    requires short { (one : Description)
        → slice_get (descriptions_of ones.old.items) k ≡ Some one → length one.list < MAX_ROOM }
    requires taken { (one : Description) → Has (descriptions_of ones.old.items) one
        → IsTaken (O.spec object.now).next returning.now reply (descriptions_of ones.old.items)
        (descriptions_of left.old.items) one }
    ensures added { OnOk result (AreAdded (O.spec object.now) calls.now returning.now reply []
        (descriptions_of ones.old.items) (descriptions_of left.old.items)
        (descriptions_of ones.new.items) (descriptions_of left.new.items)) }
    ensures leads { OnOk result ((one : Description)
        → slice_get (descriptions_of ones.old.items) k ≡ Some one → (at : Configuration)
        → Means one at ⊎ Hides (O.spec object.now).next (O.writes object.now) calls.now
        returning.now.call one at
        → MayBePlaced (O.spec object.now).next calls.now at call.now
        → LeadsTo (O.spec object.now).next (O.writes object.now) calls.now returning.now reply
        (descriptions_of ones.new.items) (descriptions_of left.new.items) one at call.now) }
{
    let one = &ones[k];
    if one.places(call.call) {
        return Ok(());
    }
    if adds_nothing(alloc, object, calls, returning, one, call)? {
        return Ok(());
    }
    match expanded(alloc, object, calls, one, call)? {
        Some(next) => admit(alloc, object, calls, returning, reply, 0, next, ones, left),
        None => Ok(()),
    }
}

/// Takes a description before a call returns with a reply, with what can follow and leave the list,
/// where none of those at which calls are still placed serves for it. Open calls with a number below
/// `first` are optional already where they can follow and leave the list.
pub fn admit<O: Overwriting>(
    alloc: Global,
    object: &O,
    calls: &[OpenCall],
    returning: &OpenCall,
    reply: u64,
    first: u64,
    one: Reached,
    ones: &mut Vec<Reached>,
    left: &mut Vec<Reached>,
) -> Result<(), NoMemory>
    requires { (other : Description) → Has (descriptions_of ones.old.items) other
        → IsTaken (O.spec object.now).next returning.now reply (descriptions_of ones.old.items)
        (descriptions_of left.old.items) other }
    ensures added { OnOk result (AreAdded (O.spec object.now) calls.now returning.now reply
        (description_of one ∷ [])
        (descriptions_of ones.old.items) (descriptions_of left.old.items)
        (descriptions_of ones.new.items) (descriptions_of left.new.items)) }
    ensures taken { OnOk result (IsTaken (O.spec object.now).next returning.now reply
        (descriptions_of ones.new.items) (descriptions_of left.new.items) (description_of one)) }
{
    if serve(ones, &one) {
        return Ok(());
    }
    let mut settled = one;
    settle(alloc, object, calls, first, &mut settled)?;
    take(object, alloc, returning, reply, settled, ones, left)
}

// Whether an open call isn't placed at a description, since the description means or hides what this
// would lead to.
fn adds_nothing<O: Overwriting>(
    alloc: Global,
    object: &O,
    calls: &[OpenCall],
    returning: &OpenCall,
    one: &Reached,
    call: &OpenCall,
) -> Result<bool, NoMemory>
    requires is_open { Has calls.now call.now }
    requires short { length one.now.list.items < MAX_ROOM }
    ensures { IfOk result (λ nothing. IsTrue nothing → (at : Configuration)
        → Means (description_of one.now) at
        ⊎ Hides (O.spec object.now).next (O.writes object.now) calls.now returning.now.call
        (description_of one.now) at
        → MayBePlaced (O.spec object.now).next calls.now at call.now
        → Means (description_of one.now) (with_call (O.spec object.now).next at call.now)
        ⊎ ((call.now.call ≢ returning.now.call)
        × Hides (O.spec object.now).next (O.writes object.now) calls.now returning.now.call
        (description_of one.now) (with_call (O.spec object.now).next at call.now))) }
{
    if object.overwrites(call.op) {
        if call.call == returning.call {
            return Ok(false);
        }
        return is_unseen(alloc, object, calls, returning, one, call);
    }
    stays(alloc, object, one, call)
}

// Whether a call leaves the list of a description, and is optional there with its reply.
fn stays<O: Overwriting>(
    alloc: Global,
    object: &O,
    one: &Reached,
    call: &OpenCall,
) -> Result<bool, NoMemory>
    requires { length one.now.list.items < MAX_ROOM }
    ensures { IfOk result (λ stays. IsTrue stays → (at : Configuration)
        → Means (description_of one.now) at → (IsPlacedAt at call.now.call → ⊥)
        → Means (description_of one.now) (with_call (O.spec object.now).next at call.now)) }
{
    let (reply, stays) = one.step(alloc, object, call.op)?;
    Ok(
        stays
            && one.may_have(Placed {
                call: call.call,
                reply,
            }),
    )
}

// Whether no other open call needs to see what is after an open call at a description.
fn is_unseen<O: Overwriting>(
    alloc: Global,
    object: &O,
    calls: &[OpenCall],
    returning: &OpenCall,
    one: &Reached,
    call: &OpenCall,
) -> Result<bool, NoMemory>
    requires { length one.now.list.items < MAX_ROOM }
    ensures { IfOk result (λ unseen. IsTrue unseen → (other : OpenCall) → Has calls.now other
        → IsUnseenBy (O.spec object.now).next (O.writes object.now) returning.now.call
        (description_of one.now) call.now other) }
{
    let Some(after) = one.after(alloc, object, call)? else {
        return Ok(false);
    };
    if !after.is_short() {
        return Ok(false);
    }
    for other in calls {
        if sees(alloc, object, returning, &after, other)? {
            return Ok(false);
        }
    }
    Ok(true)
}

// Whether an open call may be placed at a description, isn't known to overwrite, and doesn't rest
// there.
fn sees<O: Overwriting>(
    alloc: Global,
    object: &O,
    returning: &OpenCall,
    after: &Reached,
    other: &OpenCall,
) -> Result<bool, NoMemory>
    requires { length after.now.list.items < MAX_ROOM }
    ensures { IfOk result (λ sees. sees ≡ false → SeesNothing (O.spec object.now).next
        (O.writes object.now) returning.now.call (description_of after.now) other.now) }
{
    if after.places(other.call) || object.overwrites(other.op) {
        return Ok(false);
    }
    if rests_known(object, returning, after, other) {
        return Ok(false);
    }
    let (reply, _) = after.step(alloc, object, other.op)?;
    if rests(object, returning, after, other, reply) {
        return Ok(false);
    }
    Ok(other.may_have(reply))
}

// Whether an open call rests at a description with its known reply.
fn rests_known<O: GrowsByOne>(
    object: &O,
    returning: &OpenCall,
    one: &Reached,
    call: &OpenCall,
) -> bool
    ensures { IsTrue result → (reply : ℕ) × (call.now.reply ≡ Some reply)
        × Rests (O.spec object.now).next returning.now.call (description_of one.now) call.now
        reply }
{
    match call.reply {
        Some(reply) => rests(object, returning, one, call, reply),
        None => false,
    }
}

// Whether an open call rests at a description with a reply.
fn rests<O: GrowsByOne>(
    object: &O,
    returning: &OpenCall,
    one: &Reached,
    call: &OpenCall,
    reply: u64,
) -> bool
    ensures { IsTrue result → Rests (O.spec object.now).next returning.now.call
        (description_of one.now) call.now reply }
{
    let place = Placed {
        call: call.call,
        reply,
    };
    call.call != returning.call && object.leaves(call.op, reply) && one.may_have(place)
}

// Takes a description before a call returns with a reply. What is left of it, where the call may be
// placed there with this reply, goes to those that are left. It goes itself to those at which calls
// are still placed, where the call may be placed later.
fn take<O: GrowsByOne>(
    object: &O,
    alloc: Global,
    returning: &OpenCall,
    reply: u64,
    one: Reached,
    ones: &mut Vec<Reached>,
    left: &mut Vec<Reached>,
) -> Result<(), NoMemory>
    requires { (other : Description) → Has (descriptions_of ones.old.items) other
        → Serves other (description_of one) → ⊥ }
    ensures added { OnOk result ((calls : List OpenCall) → AreAdded (O.spec object.now) calls
        returning.now reply (description_of one ∷ [])
        (descriptions_of ones.old.items) (descriptions_of left.old.items)
        (descriptions_of ones.new.items) (descriptions_of left.new.items)) }
    ensures taken { OnOk result (IsTaken (O.spec object.now).next returning.now reply
        (descriptions_of ones.new.items)
        (descriptions_of left.new.items) (description_of one)) }
{
    let place = Placed {
        call: returning.call,
        reply,
    };
    if one.has(place) {
        put(left, one.without(alloc, returning.call)?)?;
        return Ok(());
    }
    if one.places(returning.call) {
        return Ok(());
    }
    if !one.may_have(place) {
        add(ones, one)?;
        return Ok(());
    }
    put(left, one.without(alloc, returning.call)?)?;
    if object.leaves(returning.op, reply) {
        return Ok(());
    }
    add(ones, one)?;
    Ok(())
}

// Puts a description in, where none that is in serves for it.
fn put(ones: &mut Vec<Reached>, one: Reached) -> Result<(), NoMemory>
    ensures grows { OnOk result (Grows (descriptions_of ones.old.items)
        (descriptions_of ones.new.items)) }
    ensures means { OnOk result ((at : Configuration) → Means (description_of one) at
        → AreMeant (descriptions_of ones.new.items) at) }
    ensures cases { OnOk result ((other : Description) → Has (descriptions_of ones.new.items) other
        → Has (descriptions_of ones.old.items) other ⊎ (description_of one ≡ other)) }
    ensures apart { OnOk result (AreApart (descriptions_of ones.old.items)
        → AreApart (descriptions_of ones.new.items)) }
{
    if serve(ones, &one) {
        return Ok(());
    }
    add(ones, one)
}

// Adds a description, where none that is in serves for it.
fn add(ones: &mut Vec<Reached>, one: Reached) -> Result<(), NoMemory>
    requires { (other : Description) → Has (descriptions_of ones.old.items) other
        → Serves other (description_of one) → ⊥ }
    ensures grows { OnOk result (Grows (descriptions_of ones.old.items)
        (descriptions_of ones.new.items)) }
    ensures means { OnOk result ((at : Configuration) → Means (description_of one) at
        → AreMeant (descriptions_of ones.new.items) at) }
    ensures cases { OnOk result ((other : Description) → Has (descriptions_of ones.new.items) other
        → Has (descriptions_of ones.old.items) other ⊎ (description_of one ≡ other)) }
    ensures apart { OnOk result (AreApart (descriptions_of ones.old.items)
        → AreApart (descriptions_of ones.new.items)) }
{
    ones.push(one)?;
    Ok(())
}

/// Those of some descriptions for which no later one serves.
pub fn pruned(alloc: Global, ones: &[Reached]) -> Result<Vec<Reached>, NoMemory>
    ensures means { IfOk result (λ pruned. (at : Configuration)
        → AreMeant (descriptions_of ones.now) at → AreMeant (descriptions_of pruned.items) at) }
    ensures from { IfOk result (λ pruned. (one : Description)
        → Has (descriptions_of pruned.items) one → Has (descriptions_of ones.now) one) }
{
    let mut pruned = Vec::new(alloc);
    for k in 0..ones.len() {
        put(&mut pruned, ones[ones.len() - 1 - k].copy(alloc)?)?;
    }
    Ok(pruned)
}

// Whether one of some descriptions serves for another one.
fn serve(ones: &[Reached], one: &Reached) -> bool
    ensures some { IsTrue result → (other : Description) × Has (descriptions_of ones.now) other
        × Serves other (description_of one.now) }
    ensures none { result ≡ false → (other : Description) → Has (descriptions_of ones.now) other
        → Serves other (description_of one.now) → ⊥ }
{
    for k in 0..ones.len() {
        if ones[k].serves(one) {
            return true;
        }
    }
    false
}
