ghost use Rattle.std.specs.Prelude.{◌≡◌, ℕ, List, Option, None, OnOk, bytes_eq, if◌then◌else◌};
ghost use Rattle.std.specs.HashMap as hash;
ghost use Rattle.history_text.specs.declared.event.LinedEvent.{LinedEvent};
ghost use Rattle.history_text.specs.Pairing.{event_or};

use crate::entry::{Entry, LinedEntry};
use crate::event::LinedEvent;
use book_base::NoMemory;
use std::alloc::Global;
use std::collections::HashMap;

// One event of each process: the one that was noted last.
#[derive(Drop)]
pub struct ProcessEvents<'a> {
    events: HashMap<&'a [u8], LinedEvent<'a>>,
}

impl<'a> ProcessEvents<'a> {
    // No events.
    pub fn new(alloc: Global) -> ProcessEvents<'a>
        ensures { (process : List ℕ)
            → hash.get_by (λ key. bytes_eq process key.now) result.events ≡ None }
    {
        ProcessEvents {
            events: HashMap::new(alloc),
        }
    }

    // The event of a process.
    pub fn of(&self, process: &[u8]) -> Option<LinedEvent<'a>>
        ensures { result ≡ hash.get_by (λ key. bytes_eq process.now key.now) self.now.events }
    {
        self.events.get(process).copied()
    }

    // Notes an entry where it is an event.
    pub fn note(&mut self, entry: &LinedEntry<'a>) -> Result<(), NoMemory>
        ensures { OnOk result ((process : List ℕ)
            → hash.get_by (λ key. bytes_eq process key.now) self.new.events
            ≡ event_or process entry.now.line entry.now.entry
            (hash.get_by (λ key. bytes_eq process key.now) self.old.events)) }
    {
        if let Entry::OfCall(event) = entry.entry {
            let lined = LinedEvent {
                line: entry.line,
                event,
            };
            self.put(lined)?;
        }
        Ok(())
    }

    // Puts an event as the one of its process.
    fn put(&mut self, lined: LinedEvent<'a>) -> Result<(), NoMemory>
        ensures { OnOk result ((process : List ℕ)
            → hash.get_by (λ key. bytes_eq process key.now) self.new.events
            ≡ (if bytes_eq lined.entry.event.process.now process then Some lined.entry
            else hash.get_by (λ key. bytes_eq process key.now) self.old.events)) }
    {
        self.events.insert(lined.event.process, lined)?;
        Ok(())
    }
}
