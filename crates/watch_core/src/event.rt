ghost use Rattle.std.specs.Prelude.{◌≡◌};
ghost use Rattle.streams.specs.Stream.{process_of};
ghost use Rattle.watch_core.specs.Event.{event_of};

use book_base::OpWord;

/// An event of a stream: a process calls an operation, the pending call of a process returns with a
/// reply, or the pending call of a process is lost. A lost call may take effect at any later time
/// or never, and its process may call again.
#[derive(Clone, Copy, Debug, PartialEq, Eq)]
pub enum Event {
    Call { process: u64, op: OpWord },
    Return { process: u64, reply: u64 },
    Lost { process: u64 },
}

impl Event {
    /// The process of the event.
    pub fn process(&self) -> u64
        ensures { result ≡ process_of (event_of self.now) }
    {
        match *self {
            Event::Call { process, op: _ } => process,
            Event::Return { process, reply: _ } => process,
            Event::Lost { process } => process,
        }
    }
}
