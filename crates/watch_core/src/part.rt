ghost use Rattle.std.specs.Prelude.{◌≡◌, ◌↔◌, [], length, List, Some, IfOk, OnOk, OnErr, IsTrue, false};
ghost use Rattle.book_base.specs.SeqSpec.{SeqSpec};
ghost use Rattle.seq_objects.specs.Objects.{kind_spec};
ghost use Rattle.streams.specs.Stream.{StreamEvent, Called, Returned, Lost};
ghost use Rattle.late_residue.specs.LateOnes.{IsBeyond};
ghost use Rattle.watch_core.specs.Part.{IsPartOf, Copies, TakesEvent, IsTold};

use crate::pending::pending;
use book_base::{NoMemory, OpWord};
use late_residue::{LateResidue, OpenCall};
use seq_objects::Kind;
use std::alloc::Global;
use std::marker::Model;

/// What a watch holds of the part of the stream that has one key: how many events the part has, its
/// open calls, whose numbers are counted in the part, and its late residue.
#[derive(Drop)]
pub struct Part {
    taken: u64,
    calls: Vec<OpenCall>,
    residue: LateResidue,
}

impl Model for Part {
    ghost use Rattle.watch_core.specs.Part.{Parted};

    ghost Value = { Parted };

    ghost view = { λ p. record { taken = p.taken; calls = p.calls.items; residue = p.residue } };
}

impl Part {
    /// The part of a key without events.
    pub fn new(alloc: Global, kind: Kind) -> Result<Part, NoMemory>
        ensures first { IfOk result (λ part. IsPartOf (kind_spec kind) part []) }
        ensures none { IfOk result (λ part. part.calls ≡ []) }
    {
        Ok(Part {
            taken: 0,
            calls: Vec::new(alloc),
            residue: LateResidue::new(alloc, &kind)?,
        })
    }

    /// A copy of the part.
    pub fn copy(&self, alloc: Global) -> Result<Part, NoMemory>
        ensures { IfOk result (λ copy. Copies (Some self.now) (Some copy)) }
    {
        let mut calls = Vec::with_capacity(alloc, self.calls.len())?;
        calls.extend_from_slice(&self.calls)?;
        Ok(Part {
            taken: self.taken,
            calls,
            residue: self.residue.copy(alloc)?,
        })
    }

    /// How many descriptions of configurations the part has.
    pub fn configurations(&self) -> usize
        ensures { result ≡ length self.now.residue }
    {
        self.residue.len()
    }

    /// Whether the part has no description.
    pub fn is_empty(&self) -> bool
        ensures { IsTrue result ↔ (self.now.residue ≡ []) }
    {
        self.residue.is_empty()
    }

    /// A process calls an operation.
    pub fn call(&mut self, process: u64, op: OpWord) -> Result<(), NoMemory>
        ensures taken { OnOk result ((spec : SeqSpec)
            → TakesEvent spec (Called process op) (Some self.old) (Some self.new)) }
        ensures same { OnErr result (self.new ≡ self.old) }
    {
        let call = OpenCall {
            call: self.taken,
            process,
            op,
            is_lost: false,
            reply: None,
        };
        if self.calls.push(call).is_err() {
            return Err(NoMemory);
        }
        self.taken = self.taken.saturating_add(1);
        Ok(())
    }

    /// The pending call of a process is lost.
    pub fn lose(&mut self, process: u64)
        ensures { (spec : SeqSpec)
            → TakesEvent spec (Lost process) (Some self.old) (Some self.new) }
    {
        if let Some(at) = pending(&self.calls, process) {
            self.calls[at].is_lost = true;
        }
        self.taken = self.taken.saturating_add(1);
    }

    /// The pending call of a process returns with a reply. The answer is whether the limit allows
    /// it: where it doesn't, nothing is changed.
    pub fn take_return(
        &mut self,
        alloc: Global,
        kind: Kind,
        limit: usize,
        process: u64,
        reply: u64,
    ) -> Result<bool, NoMemory>
        ensures taken { IfOk result (λ all. IsTrue all → TakesEvent (kind_spec kind)
            (Returned process reply) (Some self.old) (Some self.new)) }
        ensures beyond { IfOk result (λ all. all ≡ false → (events : List StreamEvent)
            → IsPartOf (kind_spec kind) self.old events
            → IsBeyond (kind_spec kind) events self.old.calls limit) }
        ensures same { OnErr result (self.new ≡ self.old) }
    {
        let Some(at) = pending(&self.calls, process) else {
            return Ok(true);
        };
        let returning = self.calls[at];
        let all = self
            .residue
            .take_return(alloc, &kind, &self.calls, &returning, reply, limit)?;
        if all {
            self.calls.remove(at);
            self.taken = self.taken.saturating_add(1);
        }
        Ok(all)
    }

    /// Tells with which reply the pending call of a process will return.
    pub fn expect(&mut self, process: u64, reply: u64)
        ensures { (spec : SeqSpec) → IsTold spec process reply (Some self.old) (Some self.new) }
    {
        if let Some(at) = pending(&self.calls, process) {
            let call = self.calls[at].call;
            self.calls[at].reply = Some(reply);
            self.residue.reveal(call, reply);
        }
    }
}
