ghost use Rattle.std.specs.Prelude.{◌≡◌, ℕ, ◌+◌, ◌++◌, ◌∷◌, ◌<◌, ◌≤◌, [], List, length, IfOk, IfErr, IfSome, IfNone, OnOk, OnErr};
ghost use Rattle.seq_objects.specs.Objects.{kind_spec};
ghost use Rattle.streams.specs.Stream.{StreamEvent};
ghost use Rattle.streams.specs.StreamOrder.{HasLegalStreamOrder};
ghost use Rattle.watch_core.specs.Event.{event_of};
ghost use Rattle.watch_core.specs.Verdict.{IsRefusal};
ghost use Rattle.watch_core.specs.Watch.{HasTaken};
ghost use Rattle.watch_core.specs.declared.TheConstants.{MAX_OPEN};
ghost use Rattle.watch_core.specs.declared.verdict.Verdict.TheVariants.{Illegal};
ghost use Rattle.windowed_watch.specs.Ahead.{IsWithin, IsRunning, IsFinal, IsTakable};
ghost use Rattle.watch_core.specs.declared.verdict.Refused.{Refused};

use crate::checkpoint::Checkpoint;
use crate::steps::{foretell, replay, step};
use book_base::NoMemory;
use seq_objects::Kind;
use std::alloc::Global;
use std::mem;
use watch_core::{Event, Refused, Verdict, Watch};

/// A watch and the events that it will take. The log has the events since a checkpoint, the base;
/// the watch has taken the first ones, as many as `taken` says, and of these the first `legal` ones
/// are known to have a legal order. At `every` events at least after its predecessor a checkpoint
/// is left.
#[derive(Drop)]
pub struct Lookahead {
    pub alloc: Global,
    pub every: usize,
    pub base: Watch,
    pub next: Checkpoint,
    pub log: Vec<Event>,
    pub taken: usize,
    pub legal: usize,
    pub watch: Watch,
}

impl Lookahead {
    /// A watch of an object that has had no call, with no events to come.
    pub fn new(alloc: Global, kind: Kind, limit: usize, every: usize) -> Result<Lookahead, NoMemory>
        ensures within { IfOk result (λ ahead. IsWithin ahead) }
        ensures running { IfOk result (λ ahead. IsRunning ahead []) }
        ensures kind { IfOk result (λ ahead. (ahead.watch.kind ≡ kind)
            × (ahead.watch.limit ≡ limit)) }
        ensures empty { IfOk result (λ ahead. ahead.log.items ≡ []) }
    {
        Ok(Lookahead {
            alloc,
            every,
            base: Watch::new(alloc, kind, limit)?,
            next: Checkpoint {
                watch: Watch::new(alloc, kind, limit)?,
                taken: 0,
                seen: 0,
            },
            log: Vec::new(alloc),
            taken: 0,
            legal: 0,
            watch: Watch::new(alloc, kind, limit)?,
        })
    }

    /// Receives the next event, where another watch that has taken all events takes it too.
    pub fn receive(&mut self, front: &mut Watch, event: Event) -> Result<(), Refused>
        requires within { IsWithin self.old }
        requires count { length self.old.log.items ≤ front.old.taken }
        ensures within { IsWithin self.new }
        ensures count { length self.new.log.items ≤ front.new.taken }
        ensures front { OnOk result ((stream : List StreamEvent) → HasTaken front.old stream []
            → IsTakable stream → length front.old.calls ≤ MAX_OPEN
            → HasTaken front.new (stream ++ event_of event ∷ []) []
            × IsTakable (stream ++ event_of event ∷ [])) }
        ensures calls { length front.old.calls ≤ MAX_OPEN → length front.new.calls ≤ MAX_OPEN }
        ensures running { OnOk result ((stream : List StreamEvent) → IsRunning self.old stream
            → IsRunning self.new (stream ++ event_of event ∷ [])) }
        ensures more { OnOk result ((self.new.legal ≡ self.old.legal)
            × (length self.new.log.items ≡ length self.old.log.items + 1)) }
        ensures refused { IfErr result (λ refused. (stream : List StreamEvent)
            → HasTaken front.old stream []
            → IsRefusal stream (length front.old.calls) (event_of event) refused) }
        ensures same { OnErr result ((front.new ≡ front.old)
            × ((stream : List StreamEvent) → IsRunning self.old stream
            → IsRunning self.new stream)) }
        ensures kind { (self.new.watch.kind ≡ self.old.watch.kind)
            × (self.new.watch.limit ≡ self.old.watch.limit) }
    {
        if self.log.push(event).is_err() {
            return Err(Refused::NoMemory);
        }
        if let Err(refused) = front.take(event) {
            self.log.pop();
            return Err(refused);
        }
        foretell(&mut self.watch, &self.log[self.taken..], event.process());
        Ok(())
    }

    /// Takes events until at most `held` of the log aren't taken, and answers the verdict where it
    /// is final, after `received` events in all.
    pub fn let_go(&mut self, received: u64, held: usize) -> Result<Option<Verdict>, Refused>
        requires within { IsWithin self.old }
        requires count { length self.old.log.items ≤ received }
        ensures within { IsWithin self.new }
        ensures count { length self.new.log.items ≤ received }
        ensures running { (stream : List StreamEvent) → IsRunning self.old stream
            → IsRunning self.new stream }
        ensures last { IfOk result (λ found. IfSome found (λ verdict. (stream : List StreamEvent)
            → IsRunning self.old stream → received ≡ length stream
            → IsFinal self.old.watch.kind self.old.watch.limit stream verdict)) }
        ensures few { IfOk result (λ found. IfNone found
            (length self.new.log.items ≤ self.new.legal + held)) }
        ensures refused { IfErr result (λ why. (stream : List StreamEvent)
            → IsRunning self.old stream → IsTakable stream → why ≡ Refused.NoMemory) }
        ensures kind { (self.new.watch.kind ≡ self.old.watch.kind)
            × (self.new.watch.limit ≡ self.old.watch.limit) }
    {
        let mut found = self.settle(received)?;
        while found.is_none() && self.log.len() - self.taken > held {
            self.advance()?;
            found = self.settle(received)?;
        }
        Ok(found)
    }

    // Takes the next event of the log.
    fn advance(&mut self) -> Result<(), Refused>
        requires within { IsWithin self.old }
        requires some { self.old.taken < length self.old.log.items }
        ensures within { IsWithin self.new }
        ensures running { (stream : List StreamEvent) → IsRunning self.old stream
            → IsRunning self.new stream }
        ensures taken { OnOk result (self.new.taken ≡ self.old.taken + 1) }
        ensures refused { IfErr result (λ why. (stream : List StreamEvent)
            → IsRunning self.old stream → IsTakable stream → why ≡ Refused.NoMemory) }
        ensures log { self.new.log.items ≡ self.old.log.items }
        ensures kind { (self.new.watch.kind ≡ self.old.watch.kind)
            × (self.new.watch.limit ≡ self.old.watch.limit) }
    {
        step(
            &mut self.watch,
            self.log[self.taken],
            &self.log[self.taken + 1..],
        )?;
        self.taken += 1;
        Ok(())
    }

    // The final verdict, where there is one; where there is none, the events that the watch has
    // taken are known to have a legal order.
    fn settle(&mut self, received: u64) -> Result<Option<Verdict>, Refused>
        requires within { IsWithin self.old }
        requires count { length self.old.log.items ≤ received }
        ensures within { IsWithin self.new }
        ensures count { length self.new.log.items ≤ received }
        ensures running { (stream : List StreamEvent) → IsRunning self.old stream
            → IsRunning self.new stream }
        ensures last { IfOk result (λ found. IfSome found (λ verdict. (stream : List StreamEvent)
            → IsRunning self.old stream → received ≡ length stream
            → IsFinal self.old.watch.kind self.old.watch.limit stream verdict)) }
        ensures legal { IfOk result (λ found. IfNone found (self.new.legal ≡ self.new.taken)) }
        ensures refused { IfErr result (λ why. (stream : List StreamEvent)
            → IsRunning self.old stream → IsTakable stream → why ≡ Refused.NoMemory) }
        ensures left { length self.new.log.items + self.old.taken
            ≡ length self.old.log.items + self.new.taken }
        ensures watch { self.new.watch ≡ self.old.watch }
    {
        match self.watch.verdict() {
            Verdict::Legal(_) => {
                self.legal = self.taken;
                self.renew()?;
                Ok(None)
            }
            Verdict::Illegal(_, _) => Ok(Some(self.find(received)?)),
            Verdict::Unsure(number) => Ok(Some(Verdict::Unsure(number))),
        }
    }

    // Where it is time, begins the log at the checkpoint, and leaves another one. All events from
    // which the checkpoint knows replies are known to have a legal order then.
    fn renew(&mut self) -> Result<(), NoMemory>
        requires within { IsWithin self.old }
        requires legal { self.old.legal ≡ self.old.taken }
        ensures within { IsWithin self.new }
        ensures legal { self.new.legal ≡ self.new.taken }
        ensures running { (stream : List StreamEvent) → IsRunning self.old stream
            → IsRunning self.new stream }
        ensures few { length self.new.log.items ≤ length self.old.log.items }
        ensures left { length self.new.log.items + self.old.taken
            ≡ length self.old.log.items + self.new.taken }
        ensures watch { self.new.watch ≡ self.old.watch }
    {
        if self.taken < self.next.seen || self.taken - self.next.seen < self.every {
            return Ok(());
        }
        let from = self.next.taken;
        let mut log = Vec::with_capacity(self.alloc, self.log.len() - from)?;
        log.extend_from_slice(&self.log[from..])?;
        let next = Checkpoint {
            watch: self.watch.copy()?,
            taken: self.taken - from,
            seen: log.len(),
        };
        self.base = mem::replace(&mut self.next, next).watch;
        self.log = log;
        self.taken -= from;
        self.legal = self.taken;
        Ok(())
    }

    // The first event with which there is no legal order, by halving, where there is none with all
    // events. Both numbers of the answer are its own, unless the limit is met.
    fn find(&self, received: u64) -> Result<Verdict, Refused>
        requires within { IsWithin self.now }
        requires count { length self.now.log.items ≤ received }
        ensures found { IfOk result
            (λ verdict. (stream : List StreamEvent) → IsRunning self.now stream
            → (HasLegalStreamOrder (kind_spec self.now.watch.kind) stream → ⊥)
            → received ≡ length stream
            → IsFinal self.now.watch.kind self.now.watch.limit stream verdict) }
        ensures refused { IfErr result (λ why. (stream : List StreamEvent)
            → IsRunning self.now stream → IsTakable stream → why ≡ Refused.NoMemory) }
    {
        let mut legal = self.legal;
        let mut illegal = self.log.len();
        while illegal - legal > 1 {
            let middle = legal + (illegal - legal) / 2;
            match replay(&self.base, &self.log[..middle])? {
                Verdict::Legal(_) => legal = middle,
                Verdict::Illegal(_, _) => illegal = middle,
                Verdict::Unsure(_) => return Ok(self.between(received, legal, illegal)),
            }
        }
        Ok(self.between(received, legal, illegal))
    }

    // The verdict that the first events of the log, as many as the first number says, have a legal
    // order, and those up to the other number have none.
    fn between(&self, received: u64, legal: usize, illegal: usize) -> Verdict
        requires count { length self.now.log.items ≤ received }
        requires order { legal ≤ illegal }
        requires within { illegal ≤ length self.now.log.items }
        ensures { (before : ℕ) → received ≡ before + length self.now.log.items → legal < illegal
            → result ≡ Illegal (before + (legal + 1)) (before + illegal) }
    {
        let before = received - self.log.len() as u64;
        let first = (before + legal as u64).saturating_add(1);
        Verdict::Illegal(first, before + illegal as u64)
    }
}
