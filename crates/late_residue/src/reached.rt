ghost use Rattle.std.specs.Prelude.{ℕ, Some, ◌≡◌, ◌↔◌, ◌⊎◌, ◌+◌, ◌<◌, [], length, IfOk, OnOk, IfSome, IfNone, IsTrue, filter, not, ◌==◌, ◌&&◌, ◌||◌};
ghost use Rattle.std.specs.List.{list_any, list_all};
ghost use Rattle.book_base.specs.declared.TheConstants.{MAX_ROOM};
ghost use Rattle.streams.specs.StreamOrder.{StreamPlace, IsAmong};
ghost use Rattle.late_residue.specs.Description.{Description};
ghost use Rattle.late_residue.specs.Reached.{place_of, description_of};
ghost use Rattle.late_residue.specs.Meaning.{Serves};
ghost use Rattle.late_residue.specs.Known.{MayHaveReply};
ghost use Rattle.late_residue.specs.Placing.{AreOf, IsWithoutCall, IsPlacedOn, IsAllowed, IsForgotten};

use crate::open_call::OpenCall;
use book_base::{GrowsByOne, MAX_ROOM, NoMemory, OpWord, State};
use std::alloc::Global;

/// A call that is placed in an order, and the reply that it gets there.
#[derive(Clone, Copy)]
pub struct Placed {
    pub call: u64,
    pub reply: u64,
}

/// Configurations that legal orders reach: each has the placed calls, and those of the optional ones
/// that it happens to have, no call with two replies; and the object's list is the same.
#[derive(Drop)]
pub struct Reached {
    pub placed: Vec<Placed>,
    pub optional: Vec<Placed>,
    pub list: Vec<u64>,
}

impl Reached {
    /// The configuration at which no call is placed, at the list of a state.
    pub fn first(alloc: Global, state: &State) -> Result<Reached, NoMemory>
        ensures { IfOk result (λ first. description_of first
            ≡ record { placed = []; optional = []; list = state.now.words }) }
    {
        Ok(Reached {
            placed: Vec::new(alloc),
            optional: Vec::new(alloc),
            list: copy_of(alloc, state.words())?,
        })
    }

    /// A copy of the description.
    pub fn copy(&self, alloc: Global) -> Result<Reached, NoMemory>
        ensures { IfOk result (λ copy. description_of copy ≡ description_of self.now) }
    {
        Ok(Reached {
            placed: places_of(alloc, &self.placed)?,
            optional: places_of(alloc, &self.optional)?,
            list: copy_of(alloc, &self.list)?,
        })
    }

    /// Whether a call is placed here.
    pub fn places(&self, call: u64) -> bool
        ensures { IsTrue result ↔ AreOf (description_of self.now).placed call }
    {
        names(&self.placed, call)
    }

    /// Whether a call is placed here with this reply.
    pub fn has(&self, place: Placed) -> bool
        ensures { IsTrue result ↔ IsAmong (description_of self.now).placed (place_of place) }
    {
        holds(&self.placed, place)
    }

    /// Whether a call is optional here with this reply.
    pub fn may_have(&self, place: Placed) -> bool
        ensures { IsTrue result ↔ IsAmong (description_of self.now).optional (place_of place) }
    {
        holds(&self.optional, place)
    }

    /// Whether an open call is optional here with its known reply.
    pub fn has_known(&self, call: &OpenCall) -> bool
        ensures { IsTrue result ↔ (reply : ℕ) × (call.now.reply ≡ Some reply)
            × IsAmong (description_of self.now).optional
            (record { call = call.now.call; reply = reply }) }
    {
        match call.reply {
            Some(reply) => self.may_have(Placed {
                call: call.call,
                reply,
            }),
            None => false,
        }
    }

    /// Whether a call is placed here with this reply or not at all.
    pub fn has_only(&self, call: u64, reply: u64) -> bool
        ensures { result ≡ list_all
            (λ place. not (place.call == call) || place.reply == reply) self.now.placed.items }
    {
        self.placed
            .iter()
            .all(|place| place.call != call || place.reply == reply)
    }

    /// Lets go of the optional places of a call with another reply than this one.
    pub fn forget(&mut self, call: u64, reply: u64)
        ensures { IsForgotten call reply (description_of self.old) (description_of self.new) }
    {
        self.optional
            .retain(|place| place.call != call || place.reply == reply);
    }

    /// Whether the list has fewer words than a state may have.
    pub fn is_short(&self) -> bool
        ensures { IsTrue result ↔ (length (description_of self.now).list < MAX_ROOM) }
    {
        (self.list.len() as u64) < MAX_ROOM
    }

    /// Whether this serves for another one: it means all that the other one means.
    pub fn serves(&self, other: &Reached) -> bool
        ensures { IsTrue result ↔ Serves (description_of self.now) (description_of other.now) }
    {
        if !are_same(&self.list, &other.list) {
            return false;
        }
        if !are_held(&self.placed, &other.placed) {
            return false;
        }
        if !are_held(&other.optional, &self.optional) {
            return false;
        }
        are_either(&other.placed, &self.placed, &self.optional)
    }

    /// The reply that the object gives to an operation here, and whether the list stays.
    pub fn step<O: GrowsByOne>(
        &self,
        alloc: Global,
        object: &O,
        op: OpWord,
    ) -> Result<(u64, bool), NoMemory>
        requires { length self.now.list.items < MAX_ROOM }
        ensures reply { IfOk result
            (λ step. step.0 ≡ ((O.spec object.now).next self.now.list.items op).1) }
        ensures stays { IfOk result (λ step. IsTrue step.1
            → ((O.spec object.now).next self.now.list.items op).0 ≡ self.now.list.items) }
    {
        let mut state = self.state(alloc)?;
        let reply = object.step(&mut state, op);
        let stays = state.words() == &self.list[..];
        Ok((reply, stays))
    }

    /// The description after an open call is placed here, or `None` where the object gives the call
    /// another reply than the known one.
    pub fn after<O: GrowsByOne>(
        &self,
        alloc: Global,
        object: &O,
        call: &OpenCall,
    ) -> Result<Option<Reached>, NoMemory>
        requires { length self.now.list.items < MAX_ROOM }
        ensures after { IfOk result (λ found. IfSome found (λ after.
            IsPlacedOn (O.spec object.now).next (description_of self.now) call.now
            (description_of after))) }
        ensures reply { IfOk result (λ found. IfSome found (λ after.
            MayHaveReply call.now ((O.spec object.now).next self.now.list.items call.now.op).1)) }
        ensures none { IfOk result (λ found. IfNone found
            (MayHaveReply call.now ((O.spec object.now).next self.now.list.items call.now.op).1
            → ⊥)) }
    {
        let mut state = self.state(alloc)?;
        let reply = object.step(&mut state, call.op);
        if !call.may_have(reply) {
            return Ok(None);
        }
        let mut placed = places_of(alloc, &self.placed)?;
        placed.push(Placed {
            call: call.call,
            reply,
        })?;
        Ok(Some(Reached {
            placed,
            optional: others(alloc, &self.optional, call.call)?,
            list: copy_of(alloc, state.words())?,
        }))
    }

    /// The description without a call.
    pub fn without(&self, alloc: Global, call: u64) -> Result<Reached, NoMemory>
        ensures { IfOk result
            (λ without. IsWithoutCall call (description_of self.now) (description_of without)) }
    {
        Ok(Reached {
            placed: others(alloc, &self.placed, call)?,
            optional: others(alloc, &self.optional, call)?,
            list: copy_of(alloc, &self.list)?,
        })
    }

    /// Makes a place optional.
    pub fn allow(&mut self, place: Placed) -> Result<(), NoMemory>
        ensures { OnOk result (IsAllowed (place_of place) (description_of self.old)
            (description_of self.new)) }
    {
        if self.may_have(place) {
            return Ok(());
        }
        self.optional.push(place)?;
        Ok(())
    }

    // A state with the description's list, and with room for one word more.
    fn state(&self, alloc: Global) -> Result<State, NoMemory>
        requires { length self.now.list.items < MAX_ROOM }
        ensures { IfOk result (λ state. state ≡ record {
          words = self.now.list.items;
          room = length self.now.list.items + 1;
        }) }
    {
        let mut state = State::with_room(alloc, self.list.len() as u64 + 1)?;
        for word in &self.list {
            state.push(*word);
        }
        Ok(state)
    }
}

// Whether a call is that of one of some places.
fn names(placed: &[Placed], call: u64) -> bool
    ensures { result ≡ list_any (λ place. place.call == call) placed.now }
{
    placed.iter().any(|place| place.call == call)
}

// Whether some words are others.
fn are_same(words: &[u64], others: &[u64]) -> bool
    ensures { IsTrue result ↔ (words.now ≡ others.now) }
{
    words == others
}

// Whether a place is one of some places.
fn holds(placed: &[Placed], place: Placed) -> bool
    ensures { result ≡ list_any
        (λ other. other.call == place.call && other.reply == place.reply) placed.now }
{
    placed.iter().any(|other| other.call == place.call && other.reply == place.reply)
}

// Whether all of some places are among others.
fn are_held(places: &[Placed], others: &[Placed]) -> bool
    ensures { result ≡ list_all (λ place. list_any
        (λ other. other.call == place.call && other.reply == place.reply) others.now) places.now }
{
    places.iter().all(|place| holds(others, *place))
}

// Whether all of some places are among two others.
fn are_either(places: &[Placed], ones: &[Placed], others: &[Placed]) -> bool
    ensures { result ≡ list_all (λ place. list_any
        (λ other. other.call == place.call && other.reply == place.reply) ones.now
        || list_any
        (λ other. other.call == place.call && other.reply == place.reply) others.now) places.now }
{
    places
        .iter()
        .all(|place| holds(ones, *place) || holds(others, *place))
}

// A copy of some words.
fn copy_of(alloc: Global, words: &[u64]) -> Result<Vec<u64>, NoMemory>
    ensures { IfOk result (λ copy. copy.items ≡ words.now) }
{
    let mut copy = Vec::with_capacity(alloc, words.len())?;
    copy.extend_from_slice(words)?;
    Ok(copy)
}

// A copy of some places.
fn places_of(alloc: Global, placed: &[Placed]) -> Result<Vec<Placed>, NoMemory>
    ensures { IfOk result (λ copy. copy.items ≡ placed.now) }
{
    let mut copy = Vec::with_capacity(alloc, placed.len())?;
    copy.extend_from_slice(placed)?;
    Ok(copy)
}

// Some places without those of a call.
fn others(alloc: Global, placed: &[Placed], call: u64) -> Result<Vec<Placed>, NoMemory>
    ensures { IfOk result
        (λ others. others.items ≡ filter (λ place. not (place.call == call)) placed.now) }
{
    let mut others = Vec::with_capacity(alloc, placed.len())?;
    for place in placed {
        if place.call != call {
            others.push(*place)?;
        }
    }
    Ok(others)
}
