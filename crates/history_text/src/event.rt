ghost use Rattle.std.specs.Prelude.{◌≡◌};
ghost use Rattle.history_text.specs.Pairing.{moment};
ghost use Rattle.history_text.specs.Entry.{stage_named};

use crate::clock::Clock;
use crate::item::is_text;

/// What an event of a call is.
#[derive(Clone, Copy, PartialEq, Eq)]
pub enum Stage {
    /// The call is made.
    Invoke,
    /// The call returned.
    Ok,
    /// The call took no effect.
    Fail,
    /// Whether the call took effect isn't known.
    Info,
}

impl Stage {
    /// The stage with this name.
    pub fn from_name(name: &[u8]) -> Option<Stage>
        ensures { result ≡ stage_named name.now }
    {
        if is_text(name, "invoke") {
            return Some(Stage::Invoke);
        }
        if is_text(name, "ok") {
            return Some(Stage::Ok);
        }
        if is_text(name, "fail") {
            return Some(Stage::Fail);
        }
        if is_text(name, "info") {
            return Some(Stage::Info);
        }
        None
    }
}

/// An event of a log.
#[derive(Clone, Copy)]
pub struct Event<'a> {
    pub process: &'a [u8],
    pub stage: Stage,
    pub operation: &'a [u8],
    pub key: Option<&'a [u8]>,
    pub value: Option<&'a [u8]>,
    pub arguments: Option<&'a [u8]>,
    pub time: Option<u64>,
}

/// An event, with the number of its line.
#[derive(Clone, Copy)]
pub struct LinedEvent<'a> {
    pub line: u64,
    pub event: Event<'a>,
}

impl LinedEvent<'_> {
    // The moment of the event, 0 where it has none.
    pub(crate) fn moment(&self, clock: Clock) -> u64
        ensures { result ≡ moment clock self.now }
    {
        clock.moment_of(self.line, self.event.time).unwrap_or(0)
    }
}
