ghost use Rattle.std.specs.Prelude.{ℕ, ◌≡◌, ◌↔◌, false, [], ◌∷◌, ◌++◌, List, length, map, IfOk, OnErr, IsTrue};
ghost use Rattle.streams.specs.Stream.{StreamEvent, Returned, IsWaiting, IsValidStream};
ghost use Rattle.late_residue.specs.Reached.{Has, descriptions_of};
ghost use Rattle.late_residue.specs.Known.{MayHaveReply, with_reply};
ghost use Rattle.late_residue.specs.Placing.{AreAllForgotten};
ghost use Rattle.late_residue.specs.LateOnes.{AreOpen, AreLate, IsBeyond};
ghost use Rattle.late_residue.specs.declared.open_call.OpenCall.{OpenCall};
ghost use Rattle.book_base.specs.SeqSpec.{SeqSpec};

use crate::next_set::next_set;
use crate::open_call::OpenCall;
use crate::overwriting::Overwriting;
use crate::reached::Reached;
use book_base::{GrowsByOne, NoMemory, State};
use std::alloc::Global;
use std::marker::Model;

/// Descriptions of configurations: those that legal orders of a stream reach, as far as they agree
/// with the replies that are known of open calls. One description stands for all that place some of
/// its optional calls, and no call is placed before it is needed (Wing and Gong 1993; Lowe 2017).
#[derive(Drop)]
pub struct LateResidue {
    reached: Vec<Reached>,
    settled: u64,
}

impl Model for LateResidue {
    ghost use Rattle.std.specs.Prelude.{List};
    ghost use Rattle.late_residue.specs.Description.{Description};
    ghost use Rattle.late_residue.specs.Reached.{descriptions_of};

    ghost Value = { List Description };

    ghost view = { λ residue. descriptions_of residue.reached.items };
}

impl LateResidue {
    /// The late residue of the empty stream.
    pub fn new<O: GrowsByOne>(alloc: Global, object: &O) -> Result<LateResidue, NoMemory>
        ensures { IfOk result (AreLate (O.spec object.now) [] []) }
    {
        let mut state = State::with_room(alloc, 1)?;
        object.reset(&mut state);
        let mut reached = Vec::new(alloc);
        reached.push(Reached::first(alloc, &state)?)?;
        Ok(LateResidue {
            reached,
            settled: 0,
        })
    }

    /// A copy of the descriptions.
    pub fn copy(&self, alloc: Global) -> Result<LateResidue, NoMemory>
        // The copy is the late residue of each stream of which these descriptions are.
        ensures { IfOk result (λ copy. (spec : SeqSpec) (stream : List StreamEvent)
            → (calls : List OpenCall) → AreLate spec stream calls self.now
            → AreLate spec stream calls copy) }
    {
        Ok(LateResidue {
            reached: copies(alloc, &self.reached)?,
            settled: self.settled,
        })
    }

    /// How many descriptions there are.
    pub fn len(&self) -> usize
        ensures { result ≡ length self.now }
    {
        self.reached.len()
    }

    /// Whether there is no description.
    pub fn is_empty(&self) -> bool
        ensures { IsTrue result ↔ (self.now ≡ []) }
    {
        self.reached.is_empty()
    }

    /// Takes the return of an open call with a reply, which is the known one if one is known: the
    /// late residue of a stream becomes that of the stream with the return, each as far as it agrees
    /// with what is known. The answer `false` says that open calls would be placed at more than
    /// `limit` descriptions, or at a list of `MAX_ROOM` words; nothing is changed then.
    pub fn take_return<O: Overwriting>(
        &mut self,
        alloc: Global,
        object: &O,
        calls: &[OpenCall],
        returning: &OpenCall,
        reply: u64,
        limit: usize,
    ) -> Result<bool, NoMemory>
        // After the answer `true` the late residue of each stream with these open calls is that of
        // the stream with the return.
        ensures after { IfOk result (λ all. IsTrue all → (stream : List StreamEvent) (process : ℕ)
            → AreOpen stream calls.now → Has calls.now returning.now
            → IsWaiting stream process returning.now.call → MayHaveReply returning.now reply
            → IsValidStream (stream ++ Returned process reply ∷ [])
            → AreLate (O.spec object.now) stream calls.now self.old
            → AreLate (O.spec object.now) (stream ++ Returned process reply ∷ []) calls.now
            self.new) }
        // The answer `false` comes only where the residue is beyond the limit.
        ensures beyond { IfOk result (λ all. all ≡ false → (stream : List StreamEvent)
            → AreOpen stream calls.now → AreLate (O.spec object.now) stream calls.now self.old
            → IsBeyond (O.spec object.now) stream calls.now limit) }
        // After the answer `false` the descriptions are those before.
        ensures same { IfOk result (λ all. all ≡ false → self.new ≡ self.old) }
        // So they are after an error.
        ensures err { OnErr result (self.new ≡ self.old) }
    {
        match next_set(
            alloc,
            object,
            calls,
            returning,
            reply,
            self.settled,
            &self.reached,
            limit,
        )? {
            Some(after) => {
                self.reached = after;
                if let Some(last) = calls.last() {
                    self.settled = last.call.saturating_add(1);
                }
                Ok(true)
            }
            None => Ok(false),
        }
    }

    /// Lets go of the descriptions at which an open call is placed with another reply than this one,
    /// which is known now, and of optional places with another one.
    pub fn reveal(&mut self, call: u64, reply: u64)
        // The late residue of a stream, as far as it agrees with what was known, becomes what agrees
        // with this reply too.
        ensures { (spec : SeqSpec) (stream : List StreamEvent) (calls : List OpenCall)
            → (found : OpenCall) → Has calls found → found.call ≡ call
            → ((one : OpenCall) → Has calls one → one.call ≡ call → MayHaveReply one reply)
            → AreLate spec stream calls self.old
            → AreLate spec stream (map (with_reply call reply) calls) self.new }
    {
        self.reached.retain(|one| one.has_only(call, reply));
        forget(&mut self.reached, call, reply);
    }
}

// Copies of some descriptions.
fn copies(alloc: Global, ones: &[Reached]) -> Result<Vec<Reached>, NoMemory>
    ensures { IfOk result (λ copies. descriptions_of copies.items ≡ descriptions_of ones.now) }
{
    let mut copies = Vec::with_capacity(alloc, ones.len())?;
    for one in ones {
        copies.push(one.copy(alloc)?)?;
    }
    Ok(copies)
}

// Lets go of the optional places of a call with another reply than this one.
fn forget(ones: &mut Vec<Reached>, call: u64, reply: u64)
    ensures { AreAllForgotten call reply (descriptions_of ones.old.items)
        (descriptions_of ones.new.items) }
{
    for k in 0..ones.len() {
        ones[k].forget(call, reply);
    }
}
