//! A stream, read line by line.

ghost use Rattle.std.specs.Prelude.{◌≡◌, ℕ, ◌<◌, ◌==◌, if◌then◌else◌, length, Some, None, slice_get, nat_eq, IfOk, IfErr};
ghost use Rattle.streams.specs.Stream.{Called};
ghost use Rattle.indexmap.specs.IndexMap.{get};
ghost use Rattle.stream_text.specs.Stream.{Said, Due, TitleDue, EventDue, Leads, IsUntimely, Passes, Fails, names_with, object_named, pending_of, with_event, open_of};
ghost use Rattle.stream_text.specs.Reader.{HasTables, HasRead, Tells, IsErrorOf};
ghost use Rattle.stream_text.specs.declared.line.StreamLine.TheVariants as lines;
ghost use Rattle.stream_text.specs.declared.fault.StreamError.TheVariants as errors;
ghost use Rattle.stream_text.specs.declared.fault.Wrong.TheVariants.{Idle};
ghost use Rattle.stream_text.specs.declared.fault.Wrong.{Wrong};

use crate::fault::{StreamError, Wrong};
use crate::line::{StreamLine, read_object, read_stream_line, read_title};
use book_base::{NoMemory, OpWord};
use indexmap::{IndexMap, IndexSet};
use seq_objects::Kind;
use std::alloc::Global;
use watch_core::{Event, MAX_OPEN};

/// How far a reader has come.
#[derive(Clone, Copy, Debug, PartialEq, Eq)]
pub enum Phase {
    Title,
    Object,
    Events(Kind),
    Ended(Kind),
}

/// What a line says.
#[derive(Clone, Copy, Debug, PartialEq, Eq)]
pub enum Taken {
    /// It is a line of the head.
    Head,
    /// An event of an object. Objects are numbered from 0, in the order of their first calls.
    Event { object: usize, event: Event },
    /// The stream ends.
    End,
}

/// A reader of a stream, which takes its lines one by one. Its memory depends on how many objects
/// there are and on how many processes have pending calls.
#[derive(Drop)]
pub struct StreamReader {
    pub alloc: Global,
    pub phase: Phase,
    pub names: IndexSet<Vec<u8>>,
    pub counts: Vec<usize>,
    pub pending: IndexMap<u64, usize>,
}

impl StreamReader {
    /// A reader of a stream of which nothing was read.
    pub fn new(alloc: Global) -> StreamReader
        ensures { HasRead result TitleDue }
    {
        StreamReader {
            alloc,
            phase: Phase::Title,
            names: IndexSet::new(alloc),
            counts: Vec::new(alloc),
            pending: IndexMap::new(alloc),
        }
    }

    /// The name of the object of a number, which is empty for the one object without a name.
    pub fn name(&self, object: usize) -> &[u8]
        ensures { (said : Said) → HasTables self.now said → object < length said.names
            → slice_get said.names object ≡ Some result.now }
    {
        match self.names.get_index(object) {
            Some(name) => name,
            None => &[],
        }
    }

    /// Takes the next line. After want of memory the reader is done with.
    pub fn take(&mut self, line: &[u8]) -> Result<Taken, StreamError>
        // The line is right where the lines so far have led to, and the answer tells what it leads
        // to.
        ensures taken { IfOk result (λ taken. (due : Due) → HasRead self.old due
            → (after : Due) × Passes due line.now after × Tells due taken after
            × HasRead self.new after) }
        // An error is the test that the line fails, or want of memory.
        ensures wrong { IfErr result (λ error. (due : Due) → HasRead self.old due
            → IsErrorOf (Fails due line.now) error) }
        // After a wrong line the reader has read what it had read.
        ensures same { IfErr result (λ error. (what : Wrong) → error ≡ errors.Wrong what
            → (due : Due) → HasRead self.old due → HasRead self.new due) }
    {
        match self.phase {
            Phase::Title => {
                read_title(line)?;
                self.phase = Phase::Object;
                Ok(Taken::Head)
            }
            Phase::Object => {
                self.phase = Phase::Events(read_object(line)?);
                Ok(Taken::Head)
            }
            Phase::Events(kind) => self.take_line(kind, read_stream_line(kind, line)?),
            Phase::Ended(_) => Err(StreamError::Wrong(Wrong::Rest)),
        }
    }

    // Takes a line that says an event or the end.
    fn take_line(&mut self, kind: Kind, line: StreamLine) -> Result<Taken, StreamError>
        ensures taken { IfOk result (λ taken. (said : Said) → HasRead self.old (EventDue said)
            → kind ≡ said.kind → (after : Due) × Leads said line.entry after
            × Tells (EventDue said) taken after × HasRead self.new after) }
        ensures wrong { IfErr result (λ error. (said : Said) → HasTables self.old said
            → IsErrorOf (IsUntimely said line.entry) error) }
        ensures same { IfErr result (λ error. (what : Wrong) → error ≡ errors.Wrong what
            → (said : Said) → HasRead self.old (EventDue said)
            → HasRead self.new (EventDue said)) }
    {
        match line {
            StreamLine::Call { process, name, op } => {
                let object = self.take_call(process, name, op)?;
                let event = Event::Call { process, op };
                Ok(Taken::Event { object, event })
            }
            StreamLine::Return { process, reply } => {
                let object = self.let_go(process)?;
                if let Some(count) = self.counts.get_mut(object) {
                    *count = count.saturating_sub(1);
                }
                let event = Event::Return { process, reply };
                Ok(Taken::Event { object, event })
            }
            StreamLine::Lost { process } => {
                let object = self.let_go(process)?;
                let event = Event::Lost { process };
                Ok(Taken::Event { object, event })
            }
            StreamLine::End => {
                self.phase = Phase::Ended(kind);
                Ok(Taken::End)
            }
        }
    }

    // Takes a call of the object of a name.
    fn take_call(&mut self, process: u64, name: &[u8], op: OpWord) -> Result<usize, StreamError>
        ensures phase { self.new.phase ≡ self.old.phase }
        ensures taken { IfOk result (λ object. (said : Said) → HasTables self.old said
            → (object ≡ object_named said.names name.now)
            × (object < length (names_with said.names name.now))
            × (pending_of process said.events ≡ None)
            × (open_of object said.events < MAX_OPEN)
            × HasTables self.new (with_event said (names_with said.names name.now) object
            (Called process op))) }
        ensures wrong { IfErr result (λ error. (said : Said) → HasTables self.old said
            → IsErrorOf (IsUntimely said (lines.Call process name.entry op)) error) }
        ensures same { IfErr result (λ error. (what : Wrong) → error ≡ errors.Wrong what
            → (said : Said) → HasTables self.old said → HasTables self.new said) }
    {
        if self.pending.contains_key(&process) {
            return Err(StreamError::Wrong(Wrong::Busy));
        }
        let object = self.object_of(name)?;
        let Some(count) = self.counts.get_mut(object) else {
            return Err(StreamError::NoMemory);
        };
        if *count >= MAX_OPEN {
            return Err(StreamError::Wrong(Wrong::Open));
        }
        *count += 1;
        if self.pending.insert(process, object).is_err() {
            return Err(StreamError::NoMemory);
        }
        Ok(object)
    }

    // The number of the object of a name, which is new where there was none.
    fn object_of(&mut self, name: &[u8]) -> Result<usize, NoMemory>
        ensures phase { self.new.phase ≡ self.old.phase }
        ensures tables { IfOk result (λ object. (said : Said) → HasTables self.old said
            → (object ≡ object_named said.names name.now)
            × (object < length (names_with said.names name.now))
            × HasTables self.new (record said { names = names_with said.names name.now })) }
    {
        let mut key = Vec::new(self.alloc);
        key.extend_from_slice(name)?;
        let (object, is_new) = self.names.insert_full(key)?;
        if is_new {
            self.counts.push(0)?;
        }
        Ok(object)
    }

    // Lets go of the pending call of a process, and answers its object.
    fn let_go(&mut self, process: u64) -> Result<usize, StreamError>
        ensures same { (self.new.phase ≡ self.old.phase) × (self.new.counts ≡ self.old.counts)
            × (self.new.names ≡ self.old.names) }
        ensures object { IfOk result (λ object. (get nat_eq self.old.pending process ≡ Some object)
            × ((other : ℕ) → get nat_eq self.new.pending other
            ≡ (if process == other then None else get nat_eq self.old.pending other))) }
        ensures wrong { IfErr result (λ error. (error ≡ errors.Wrong Idle)
            × (get nat_eq self.old.pending process ≡ None)
            × ((other : ℕ) → get nat_eq self.new.pending other
            ≡ get nat_eq self.old.pending other)) }
    {
        match self.pending.swap_remove(&process) {
            Some(object) => Ok(object),
            None => Err(StreamError::Wrong(Wrong::Idle)),
        }
    }
}
