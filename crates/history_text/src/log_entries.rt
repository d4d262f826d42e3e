//! The entries of a log, read line by line.

ghost use Rattle.std.specs.Prelude.{◌≡◌, ℕ, List, [], ◌∷◌, ◌++◌, map, Ok, OnOk, IfErr, bytes_eq};
ghost use Rattle.std.specs.HashMap as hash;
ghost use Rattle.history_text.specs.declared.entry.Entry.{Entry};
ghost use Rattle.history_text.specs.Lines.{Line};
ghost use Rattle.history_text.specs.Pairing.{last_event, entry_fault};
ghost use Rattle.history_text.specs.Log.{SaysBySelf, IsCauseAt};

use crate::clock::Clock;
use crate::entry::{LinedEntry, read_entry};
use crate::fault::{LogError, LogFault, LogWhat};
use crate::fields::fields;
use crate::format::Format;
use crate::layout::Layout;
use crate::pairing::wrong_entry;
use crate::process_events::ProcessEvents;
use std::alloc::Global;

// The entries so far, and the last event of each process.
#[derive(Drop)]
pub struct LogEntries<'a> {
    pub entries: Vec<LinedEntry<'a>>,
    last: ProcessEvents<'a>,
}

impl<'a> LogEntries<'a> {
    // No entries.
    pub fn new(alloc: Global) -> LogEntries<'a>
        ensures none { result.entries.items ≡ [] }
        ensures last { (process : List ℕ)
            → hash.get_by (λ key. bytes_eq process key.now) result.last.events
            ≡ last_event process result.entries.items }
    {
        LogEntries {
            entries: Vec::new(alloc),
            last: ProcessEvents::new(alloc),
        }
    }

    // Reads a line.
    pub fn read(
        &mut self,
        alloc: Global,
        format: Format,
        layout: &Layout,
        clock: Clock,
        names: &[&'a [u8]],
        line: u64,
        text: &'a [u8],
    ) -> Result<(), LogError>
        requires { (process : List ℕ)
            → hash.get_by (λ key. bytes_eq process key.now) self.old.last.events
            ≡ last_event process self.old.entries.items }
        ensures last { OnOk result ((process : List ℕ)
            → hash.get_by (λ key. bytes_eq process key.now) self.new.last.events
            ≡ last_event process self.new.entries.items) }
        ensures read { OnOk result ((entry : Entry)
            × (self.new.entries.items
            ≡ self.old.entries.items ++ record { line = line; entry = entry } ∷ [])
            × SaysBySelf format layout.now (map (λ name. name.now) names.now)
            (record { number = line; bytes = text.now }) (Ok entry)
            × (entry_fault clock self.old.entries.items line entry ≡ None)) }
        ensures cause { IfErr result (IsCauseAt format layout.now clock
            (map (λ name. name.now) names.now) self.old.entries.items
            (record { number = line; bytes = text.now })) }
    {
        let Some(fields) = fields(alloc, format, names, text)? else {
            let what = LogWhat::Line;
            return Err(LogError::Fault(LogFault { line, what }));
        };
        let entry = match read_entry(alloc, layout, line, &fields)? {
            Ok(entry) => LinedEntry { line, entry },
            Err(what) => return Err(LogError::Fault(LogFault { line, what })),
        };
        if let Some(what) = wrong_entry(clock, &self.last, &entry) {
            return Err(LogError::Fault(LogFault { line, what }));
        }
        self.last.note(&entry)?;
        self.entries.push(entry)?;
        Ok(())
    }
}
