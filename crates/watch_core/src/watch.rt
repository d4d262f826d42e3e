ghost use Rattle.std.specs.Prelude.{◌≡◌, ◌↔◌, IsTrue, ℕ, ◌+◌, ◌-◌, ◌<◌, ◌≤◌, ◌^◌, [], ◌∷◌, ◌++◌, false, List, length, drop, Some, None, IfOk, IfErr, OnOk, OnErr, max, min};
ghost use Rattle.streams.specs.Stream.{StreamEvent, Called, Returned, Lost, IsValidStream, IsWaiting, Returns};
ghost use Rattle.watch_core.specs.Event.{event_of};
ghost use Rattle.watch_core.specs.Table.{Waits};
ghost use Rattle.seq_objects.specs.Objects.{kind_spec};
ghost use Rattle.stream_locality.specs.KindKeys.{key_of_kind};
ghost use Rattle.watch_core.specs.Parts.{IsNextOfKey, TakeEvent, configurations_of};
ghost use Rattle.watch_core.specs.Verdict.{IsVerdict, IsRefusal};
ghost use Rattle.watch_core.specs.declared.TheConstants.{MAX_OPEN};
ghost use Rattle.watch_core.specs.Watch.{IsHeld, HasTaken};

use crate::MAX_OPEN;
use crate::event::Event;
use crate::key::key_of;
use crate::part::Part;
use crate::parts::{call_in, copy_of, count_of, expect_in, lose_in, return_in};
use crate::pending::pending;
use crate::verdict::{Refused, Verdict};
use book_base::{NoMemory, OpWord};
use indexmap::IndexMap;
use late_residue::OpenCall;
use seq_objects::Kind;
use std::alloc::Global;
use std::marker::Model;

/// A watch of one object of a kind. Of a set and of a map it watches each key alone, since these
/// have a legal order of a stream exactly where they have one of each key's part (Herlihy and Wing
/// 1990).
///
/// Its memory depends on the calls that are open, on what the object can hold now, and on how many
/// different keys its calls have had, and not on how many events it has taken.
#[derive(Drop)]
pub struct Watch {
    alloc: Global,
    kind: Kind,
    limit: usize,
    taken: u64,
    seen: u64,
    calls: Vec<OpenCall>,
    parts: IndexMap<u64, Part>,
    last: Option<Verdict>,
}

impl Model for Watch {
    ghost use Rattle.watch_core.specs.Watch.{Watched};

    ghost Value = { Watched };

    ghost view = { λ w. record {
      kind = w.kind;
      limit = w.limit;
      taken = w.taken;
      seen = w.seen;
      calls = w.calls.items;
      parts = w.parts.entries;
      last = w.last;
    } };
}

impl Watch {
    /// A watch of an object that has had no call. At a return it places open calls of the key at no
    /// more than `limit` descriptions of the ways in which the key's events may have taken effect.
    pub fn new(alloc: Global, kind: Kind, limit: usize) -> Result<Watch, NoMemory>
        // The watch has taken no event.
        ensures fresh { IfOk result (λ watch. (later : List StreamEvent)
            → HasTaken watch [] later) }
        // It has this kind and this limit.
        ensures kind { IfOk result (λ watch. (watch.kind ≡ kind) × (watch.limit ≡ limit)) }
        // No call is open.
        ensures none { IfOk result (λ watch. watch.calls ≡ []) }
    {
        Ok(Watch {
            alloc,
            kind,
            limit,
            taken: 0,
            seen: 0,
            calls: Vec::new(alloc),
            parts: IndexMap::new(alloc),
            last: None,
        })
    }

    /// A copy of the watch.
    pub fn copy(&self) -> Result<Watch, NoMemory>
        // The copy has taken what the watch has taken, and knows what it knows of later events.
        ensures taken { IfOk result (λ copy. (stream later : List StreamEvent)
            → HasTaken self.now stream later → HasTaken copy stream later) }
        // It has the same kind and the same limit.
        ensures kind { IfOk result
            (λ copy. (copy.kind ≡ self.now.kind) × (copy.limit ≡ self.now.limit)) }
    {
        let mut calls = Vec::with_capacity(self.alloc, self.calls.len())?;
        calls.extend_from_slice(&self.calls)?;
        Ok(Watch {
            alloc: self.alloc,
            kind: self.kind,
            limit: self.limit,
            taken: self.taken,
            seen: self.seen,
            calls,
            parts: copy_of(self.alloc, &self.parts)?,
            last: self.last,
        })
    }

    /// How many events the watch has taken.
    pub fn taken(&self) -> u64
        ensures { result ≡ self.now.taken }
    {
        self.taken
    }

    /// What is said of the events that were taken.
    pub fn verdict(&self) -> Verdict
        // The verdict is right for the events that the watch has taken: it says that they have a
        // legal order, or names the events one of which is the first with which there is none, or
        // the event before which the limit was met.
        ensures { (stream later : List StreamEvent) → HasTaken self.now stream later
            → IsVerdict self.now.kind self.now.limit stream later result }
    {
        match self.last {
            Some(verdict) => verdict,
            None => Verdict::Legal(self.taken),
        }
    }

    /// How many descriptions of configurations the watch holds, of all keys together, or
    /// `usize::MAX` where it holds more.
    pub fn configurations(&self) -> usize
        ensures { result ≡ min (configurations_of self.now.parts) (2 ^ 64 - 1) }
    {
        count_of(&self.parts)
    }

    /// How many calls are open, lost ones too.
    pub fn open_calls(&self) -> usize
        ensures { result ≡ length self.now.calls }
    {
        self.calls.len()
    }

    /// Takes the next event.
    pub fn take(&mut self, event: Event) -> Result<(), Refused>
        // The watch has taken one event more, and the stream with it is valid.
        ensures taken { OnOk result ((stream later : List StreamEvent)
            → HasTaken self.old stream (event_of event ∷ later)
            → HasTaken self.new (stream ++ event_of event ∷ []) later) }
        // The watch has counted it, in a word of 64 bits.
        ensures count { OnOk result ((self.new.taken ≡ self.old.taken + 1)
            × (self.new.taken < 2 ^ 64)) }
        // No more calls are open than may be, where there were no more before.
        ensures few { length self.old.calls ≤ MAX_OPEN → length self.new.calls ≤ MAX_OPEN }
        // An event is refused only for a named cause.
        ensures refused { IfErr result (λ refused. (stream later : List StreamEvent)
            → HasTaken self.old stream later
            → IsRefusal stream (length self.old.calls) (event_of event) refused) }
        // An event that is refused changes nothing.
        ensures same { OnErr result (self.new ≡ self.old) }
        // The kind and the limit stay.
        ensures kind { (self.new.kind ≡ self.old.kind) × (self.new.limit ≡ self.old.limit) }
    {
        if self.taken == u64::MAX {
            return Err(Refused::Full);
        }
        match event {
            Event::Call { process, op } => self.take_call(process, op),
            Event::Return { process, reply } => self.take_return(process, reply),
            Event::Lost { process } => self.take_loss(process),
        }
    }

    /// Tells with which reply the pending call of a process will return, at the latest by the event
    /// of a number, counted from 1. The answer is whether the process has a pending call.
    pub fn expect(&mut self, process: u64, reply: u64, by: u64) -> bool
        // Where the call does so in the later events, the watch has taken what it had taken, and
        // knows of the reply.
        ensures expected { (stream later near far : List StreamEvent)
            → HasTaken self.old stream later → later ≡ near ++ far → by ≡ length (stream ++ near)
            → ((call : ℕ) → IsWaiting stream process call
            → (end : ℕ) × Returns (stream ++ near) call end reply)
            → HasTaken self.new stream later }
        // The answer is whether the process has a pending call.
        ensures answer { (stream later : List StreamEvent) → HasTaken self.old stream later
            → (IsTrue result ↔ Waits stream process) }
        // Without one nothing changes.
        ensures same { result ≡ false → self.new ≡ self.old }
        // The kind and the limit stay.
        ensures kind { (self.new.kind ≡ self.old.kind) × (self.new.limit ≡ self.old.limit) }
    {
        let Some(at) = pending(&self.calls, process) else {
            return false;
        };
        expect_in(
            &mut self.parts,
            key_of(self.kind, self.calls[at].op),
            process,
            reply,
        );
        self.seen = greater(self.seen, by);
        true
    }

    fn take_call(&mut self, process: u64, op: OpWord) -> Result<(), Refused>
        requires { self.old.taken + 1 < 2 ^ 64 }
        ensures taken { OnOk result ((stream later : List StreamEvent)
            → HasTaken self.old stream (Called process op ∷ later)
            → HasTaken self.new (stream ++ Called process op ∷ []) later) }
        ensures count { OnOk result (self.new.taken ≡ self.old.taken + 1) }
        ensures few { length self.old.calls ≤ MAX_OPEN → length self.new.calls ≤ MAX_OPEN }
        ensures refused { IfErr result (λ refused. (stream later : List StreamEvent)
            → HasTaken self.old stream later
            → IsRefusal stream (length self.old.calls) (Called process op) refused) }
        ensures same { OnErr result (self.new ≡ self.old) }
        ensures kind { (self.new.kind ≡ self.old.kind) × (self.new.limit ≡ self.old.limit) }
    {
        if pending(&self.calls, process).is_some() {
            return Err(Refused::Busy);
        }
        if self.calls.len() >= MAX_OPEN {
            return Err(Refused::Open);
        }
        let call = OpenCall {
            call: self.taken,
            process,
            op,
            is_lost: false,
            reply: None,
        };
        if self.calls.push(call).is_err() {
            return Err(Refused::NoMemory);
        }
        if let Err(NoMemory) = note_call(
            self.alloc,
            self.kind,
            self.last,
            &mut self.parts,
            process,
            op,
        ) {
            self.calls.pop();
            return Err(Refused::NoMemory);
        }
        self.taken += 1;
        self.seen = greater(self.seen, self.taken);
        Ok(())
    }

    fn take_loss(&mut self, process: u64) -> Result<(), Refused>
        requires { self.old.taken + 1 < 2 ^ 64 }
        ensures taken { OnOk result ((stream later : List StreamEvent)
            → HasTaken self.old stream (Lost process ∷ later)
            → HasTaken self.new (stream ++ Lost process ∷ []) later) }
        ensures count { OnOk result (self.new.taken ≡ self.old.taken + 1) }
        ensures few { length self.old.calls ≤ MAX_OPEN → length self.new.calls ≤ MAX_OPEN }
        ensures refused { IfErr result (λ refused. (stream later : List StreamEvent)
            → HasTaken self.old stream later
            → IsRefusal stream (length self.old.calls) (Lost process) refused) }
        ensures same { OnErr result (self.new ≡ self.old) }
        ensures kind { (self.new.kind ≡ self.old.kind) × (self.new.limit ≡ self.old.limit) }
    {
        let Some(at) = pending(&self.calls, process) else {
            return Err(Refused::Idle);
        };
        lose_in(
            &mut self.parts,
            key_of(self.kind, self.calls[at].op),
            process,
        );
        self.calls[at].is_lost = true;
        self.taken += 1;
        self.seen = greater(self.seen, self.taken);
        Ok(())
    }

    fn take_return(&mut self, process: u64, reply: u64) -> Result<(), Refused>
        requires { self.old.taken + 1 < 2 ^ 64 }
        ensures taken { OnOk result ((stream later : List StreamEvent)
            → HasTaken self.old stream (Returned process reply ∷ later)
            → HasTaken self.new (stream ++ Returned process reply ∷ []) later) }
        ensures count { OnOk result (self.new.taken ≡ self.old.taken + 1) }
        ensures few { length self.old.calls ≤ MAX_OPEN → length self.new.calls ≤ MAX_OPEN }
        ensures refused { IfErr result (λ refused. (stream later : List StreamEvent)
            → HasTaken self.old stream later
            → IsRefusal stream (length self.old.calls) (Returned process reply) refused) }
        ensures same { OnErr result (self.new ≡ self.old) }
        ensures kind { (self.new.kind ≡ self.old.kind) × (self.new.limit ≡ self.old.limit) }
    {
        let Some(at) = pending(&self.calls, process) else {
            return Err(Refused::Idle);
        };
        let last = judge(
            self.alloc,
            self.kind,
            self.limit,
            self.taken,
            self.seen,
            self.last,
            &mut self.parts,
            key_of(self.kind, self.calls[at].op),
            process,
            reply,
        )?;
        self.last = last;
        self.calls.remove(at);
        self.taken += 1;
        self.seen = greater(self.seen, self.taken);
        Ok(())
    }
}

// The greater one of two numbers.
fn greater(one: u64, other: u64) -> u64
    ensures { result ≡ max one other }
{
    if one < other { other } else { one }
}

// A process calls an operation, where the verdict isn't final.
fn note_call(
    alloc: Global,
    kind: Kind,
    last: Option<Verdict>,
    parts: &mut IndexMap<u64, Part>,
    process: u64,
    op: OpWord,
) -> Result<(), NoMemory>
    ensures taken { OnOk result (last ≡ None → TakeEvent (kind_spec kind) (key_of_kind kind op)
        (Called process op) parts.old.entries parts.new.entries) }
    ensures same { OnErr result (parts.new.entries ≡ parts.old.entries) }
{
    if last.is_some() {
        return Ok(());
    }
    call_in(alloc, kind, parts, key_of(kind, op), process, op)
}

// Takes the return of the pending call of a process, which has a key, after `taken` events, where
// replies are known from the events up to `seen`, and answers the verdict where it is final then.
fn judge(
    alloc: Global,
    kind: Kind,
    limit: usize,
    taken: u64,
    seen: u64,
    last: Option<Verdict>,
    parts: &mut IndexMap<u64, Part>,
    key: u64,
    process: u64,
    reply: u64,
) -> Result<Option<Verdict>, NoMemory>
    requires { taken + 1 < 2 ^ 64 }
    ensures held { IfOk result (λ next. (stream later near far : List StreamEvent)
        → IsNextOfKey kind key stream (Returned process reply)
        → IsValidStream (stream ++ Returned process reply ∷ []) → taken ≡ length stream
        → Returned process reply ∷ later ≡ near ++ far → seen ≡ length (stream ++ near)
        → IsHeld kind limit stream (Returned process reply ∷ later) near parts.old.entries last
        → IsHeld kind limit (stream ++ Returned process reply ∷ []) later (drop 1 near)
        parts.new.entries next) }
    ensures same { OnErr result (parts.new.entries ≡ parts.old.entries) }
{
    if last.is_some() {
        return Ok(last);
    }
    let Some(is_empty) = return_in(alloc, kind, limit, parts, key, process, reply)? else {
        return Ok(Some(Verdict::Unsure(taken + 1)));
    };
    if is_empty {
        return Ok(Some(Verdict::Illegal(taken + 1, greater(seen, taken + 1))));
    }
    Ok(None)
}
