//! The objects of a stream: the watch of each, and on which lines its last events are.

ghost use Rattle.std.specs.Prelude.{◌≡◌, ℕ, ◌++◌, ◌∷◌, [], true, List, IfOk, OnOk, IfSome};
ghost use Rattle.seq_objects.specs.declared.kind.Kind.{Kind};
ghost use Rattle.streams.specs.Stream.{StreamEvent};
ghost use Rattle.watch_core.specs.Event.{event_of};
ghost use Rattle.watch.specs.Timely.{IsLegalBefore};
ghost use Rattle.watch.specs.Watching.{IsWatched, IsLineOf, StandsAs};
ghost use Rattle.watch.specs.declared.settings.Settings.{Settings};

use crate::settings::Settings;
use book_base::NoMemory;
use seq_objects::Kind;
use std::alloc::Global;
use std::collections::VecDeque;
use watch_core::{Event, Verdict};
use windowed_watch::WindowedWatch;

/// After so many events of an object a checkpoint of its watch is left.
const EVERY: usize = 1024;

/// What is said of all events of an object, by their lines.
#[derive(Clone, Copy, Debug, PartialEq, Eq)]
pub enum Standing {
    /// They have a legal order.
    Legal,
    /// The first event with which they have none is on the first line, or after it and up to the
    /// last one where a limit was met.
    Illegal { first: u64, last: u64 },
    /// At the event of this line a limit was met.
    Unsure { line: u64 },
}

/// An object of a stream: its watch, how many events it had, and the lines of the last ones, which
/// are more than the watch holds back.
#[derive(Drop)]
pub struct Object {
    watch: WindowedWatch,
    events: u64,
    lines: VecDeque<u64>,
    window: usize,
}

impl Object {
    pub fn new(alloc: Global, kind: Kind, settings: Settings) -> Result<Object, NoMemory>
        // The object has received no event.
        ensures fresh { IfOk result (λ object. IsWatched object kind settings [] []) }
    {
        Ok(Object {
            watch: WindowedWatch::new(alloc, kind, settings.most, settings.window, EVERY)?,
            events: 0,
            lines: VecDeque::new(alloc),
            window: settings.window,
        })
    }

    /// Takes an event, which is on a line. Where the reader of a stream has taken it, it is refused
    /// for want of memory alone.
    pub fn take(&mut self, event: Event, line: u64) -> Result<(), NoMemory>
        // The object has received one event more.
        ensures received { OnOk result ((kind : Kind) (asked : Settings) (stream : List StreamEvent)
            (lines : List ℕ) → IsWatched self.old kind asked stream lines
            → IsWatched self.new kind asked (stream ++ event_of event ∷ []) (lines ++ line ∷ [])) }
    {
        if self.watch.take(event).is_err() {
            return Err(NoMemory);
        }
        let Some(events) = self.events.checked_add(1) else {
            return Err(NoMemory);
        };
        self.events = events;
        self.lines.push_back(line)?;
        if self.lines.len() > self.window.saturating_add(2) {
            self.lines.pop_front();
        }
        Ok(())
    }

    /// Whether all events but the last ones, as many as may be held back, are known to have a legal
    /// order.
    pub fn is_legal_before(&self) -> bool
        ensures { result ≡ true → (kind : Kind) (asked : Settings) (stream : List StreamEvent)
            (lines : List ℕ) → IsWatched self.now kind asked stream lines
            → IsLegalBefore asked kind stream }
    {
        match self.watch.verdict() {
            Verdict::Legal(number) => {
                self.events.saturating_sub(number) <= self.window.max(1) as u64
            }
            _ => false,
        }
    }

    /// Takes all events into account, and answers what is said of them.
    pub fn settle(&mut self) -> Result<Standing, NoMemory>
        // The answer is right for the events that the object has received.
        ensures right { IfOk result (λ standing. (kind : Kind) (asked : Settings)
            (stream : List StreamEvent) (lines : List ℕ)
            → IsWatched self.old kind asked stream lines
            → StandsAs kind asked stream lines standing) }
        // The object has received what it had received.
        ensures same { (kind : Kind) (asked : Settings) (stream : List StreamEvent) (lines : List ℕ)
            → IsWatched self.old kind asked stream lines
            → IsWatched self.new kind asked stream lines }
    {
        self.watch.flush()?;
        match self.standing() {
            Some(standing) => Ok(standing),
            None => Err(NoMemory),
        }
    }

    // What is said of all events, where it is said and the lines are known.
    fn standing(&self) -> Option<Standing>
        ensures { IfSome result (λ standing. (kind : Kind) (asked : Settings)
            (stream : List StreamEvent) (lines : List ℕ)
            → IsWatched self.now kind asked stream lines
            → StandsAs kind asked stream lines standing) }
    {
        match self.watch.verdict() {
            Verdict::Legal(number) => {
                if number == self.events {
                    Some(Standing::Legal)
                } else {
                    None
                }
            }
            Verdict::Illegal(first, last) => Some(Standing::Illegal {
                first: self.line(first)?,
                last: self.line(last)?,
            }),
            Verdict::Unsure(number) => Some(Standing::Unsure {
                line: self.line(number)?,
            }),
        }
    }

    // The line of the event of a number, where it is known.
    fn line(&self, number: u64) -> Option<u64>
        ensures { IfSome result (λ line. (kind : Kind) (asked : Settings)
            (stream : List StreamEvent) (lines : List ℕ)
            → IsWatched self.now kind asked stream lines → IsLineOf lines number line) }
    {
        if number == 0 || number > self.events {
            return None;
        }
        let later = self.events - number;
        let known = self.lines.len() as u64;
        if later >= known {
            return None;
        }
        self.lines.get((known - 1 - later) as usize).copied()
    }
}
