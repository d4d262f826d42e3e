ghost use Rattle.std.specs.Prelude.{◌≡◌, ◌-◌, ◌^◌, ◌++◌, ◌∷◌, ◌≤◌, [], List, length, IfOk, IfErr, OnOk, OnErr, None, max, min};
ghost use Rattle.streams.specs.Stream.{StreamEvent};
ghost use Rattle.watch_core.specs.Event.{event_of};
ghost use Rattle.watch_core.specs.Parts.{configurations_of};
ghost use Rattle.watch_core.specs.Verdict.{IsRefusal};
ghost use Rattle.watch_core.specs.declared.verdict.Refused.{Refused};
ghost use Rattle.windowed_watch.specs.Windowed.{HasReceived, IsWindowVerdict, held_back};

use crate::lookahead::Lookahead;
use book_base::NoMemory;
use seq_objects::Kind;
use std::alloc::Global;
use std::marker::Model;
use watch_core::{Event, Refused, Verdict, Watch};

/// A watch of one object that holds events back. What it says is as right as without that, since
/// replies that are known in advance only leave out what can't become right any more.
///
/// Its memory depends on the calls that are open, on what the object can hold now, on how many
/// different keys its calls have had, and on how many events it holds back.
#[derive(Drop)]
pub struct WindowedWatch {
    window: usize,
    ahead: Lookahead,
    front: Watch,
    last: Option<Verdict>,
}

impl Model for WindowedWatch {
    ghost use Rattle.std.specs.Prelude.{◌≤◌, length};
    ghost use Rattle.windowed_watch.specs.Ahead.{IsWithin};
    ghost use Rattle.windowed_watch.specs.Windowed.{Windowed};

    ghost Value = { Windowed };

    ghost view = { λ w. record {
      window = w.window;
      ahead = w.ahead;
      front = w.front;
      last = w.last;
    } };

    ghost invariant = { λ w. IsWithin w.ahead × (length w.ahead.log.items ≤ w.front.taken) };
}

impl WindowedWatch {
    /// A watch of an object that has had no call. At a return it places open calls of the key at no
    /// more than `limit` descriptions, and it holds back at most `window` events, but one if this is
    /// 0. After `every` events at least it leaves a checkpoint, from which it finds the first event
    /// with which there is no legal order.
    pub fn new(
        alloc: Global,
        kind: Kind,
        limit: usize,
        window: usize,
        every: usize,
    ) -> Result<WindowedWatch, NoMemory>
        // The watch has received no event.
        ensures fresh { IfOk result (λ watch. HasReceived watch []) }
        // It has this kind, this limit and this window.
        ensures kind { IfOk result (λ watch. (watch.ahead.watch.kind ≡ kind)
            × (watch.ahead.watch.limit ≡ limit) × (watch.window ≡ window)) }
    {
        Ok(WindowedWatch {
            window,
            ahead: Lookahead::new(alloc, kind, limit, every)?,
            front: Watch::new(alloc, kind, 0)?,
            last: None,
        })
    }

    /// What is said of the events that were received. Where it is `Illegal`, both numbers are those
    /// of the first event with which there is no legal order, unless the limit was met while that
    /// event was looked for.
    pub fn verdict(&self) -> Verdict
        // The verdict is right for the events that the watch has received: it says that all but
        // those that are held back have a legal order, or names the first event with which there is
        // none, or one at which the limit was met.
        ensures { (stream : List StreamEvent) → HasReceived self.now stream
            → IsWindowVerdict self.now.ahead.watch.kind self.now.ahead.watch.limit
            (held_back self.now) stream result }
    {
        match self.last {
            Some(verdict) => verdict,
            None => {
                let held = self.ahead.log.len() - self.ahead.legal;
                Verdict::Legal(self.front.taken() - held as u64)
            }
        }
    }

    /// How many descriptions of configurations the watch holds, of all keys together, or
    /// `usize::MAX` where it holds more.
    pub fn configurations(&self) -> usize
        ensures { result ≡ min (configurations_of self.now.ahead.watch.parts) (2 ^ 64 - 1) }
    {
        self.ahead.watch.configurations()
    }

    /// Takes the next event. Where as many events are held back as may be, the first of them is
    /// taken into account.
    pub fn take(&mut self, event: Event) -> Result<(), Refused>
        // The watch has received one event more, and the stream with it is valid.
        ensures received { OnOk result ((stream : List StreamEvent) → HasReceived self.old stream
            → HasReceived self.new (stream ++ event_of event ∷ [])) }
        // It holds back as many events as it may.
        ensures few { OnOk result (self.new.last ≡ None
            → held_back self.new ≤ max 1 self.new.window) }
        // An event is refused only for a named cause.
        ensures refused { IfErr result (λ refused. (stream : List StreamEvent)
            → HasReceived self.old stream
            → IsRefusal stream (length self.old.front.calls) (event_of event) refused) }
        // After a refusal the watch has received what it had received.
        ensures same { OnErr result ((stream : List StreamEvent) → HasReceived self.old stream
            → HasReceived self.new stream) }
        // The kind, the limit and the window stay.
        ensures kind { (self.new.ahead.watch.kind ≡ self.old.ahead.watch.kind)
            × (self.new.ahead.watch.limit ≡ self.old.ahead.watch.limit)
            × (self.new.window ≡ self.old.window) }
    {
        self.let_go(self.window.saturating_sub(1))?;
        if self.last.is_some() {
            return self.front.take(event);
        }
        self.ahead.receive(&mut self.front, event)
    }

    /// Takes all events into account that are held back, as at the end or where no event came for a
    /// while.
    pub fn flush(&mut self) -> Result<(), NoMemory>
        // The watch has received what it had received.
        ensures same { (stream : List StreamEvent) → HasReceived self.old stream
            → HasReceived self.new stream }
        // Where memory suffices, no event is held back.
        ensures few { OnOk result (self.new.last ≡ None → held_back self.new ≡ 0) }
        // The kind, the limit and the window stay.
        ensures kind { (self.new.ahead.watch.kind ≡ self.old.ahead.watch.kind)
            × (self.new.ahead.watch.limit ≡ self.old.ahead.watch.limit)
            × (self.new.window ≡ self.old.window) }
    {
        match self.let_go(0) {
            Ok(()) => Ok(()),
            Err(_) => Err(NoMemory),
        }
    }

    // Takes events into account until at most so many are held back, or the verdict is final.
    fn let_go(&mut self, held: usize) -> Result<(), Refused>
        ensures same { (stream : List StreamEvent) → HasReceived self.old stream
            → HasReceived self.new stream }
        ensures few { OnOk result (self.new.last ≡ None → held_back self.new ≤ held) }
        ensures refused { IfErr result (λ why. (stream : List StreamEvent)
            → HasReceived self.old stream → why ≡ Refused.NoMemory) }
        ensures front { self.new.front ≡ self.old.front }
        ensures kind { (self.new.ahead.watch.kind ≡ self.old.ahead.watch.kind)
            × (self.new.ahead.watch.limit ≡ self.old.ahead.watch.limit)
            × (self.new.window ≡ self.old.window) }
    {
        if self.last.is_none() {
            self.last = self.ahead.let_go(self.front.taken(), held)?;
        }
        Ok(())
    }
}
