ghost use Rattle.std.specs.Prelude.{◌≡◌};
ghost use Rattle.history_text.specs.Clock.{error_of, moment_of, earliest, latest};

/// What the moments of events are.
#[derive(Clone, Copy, Debug, PartialEq, Eq)]
pub enum Clock {
    /// Their lines: an event comes before those of later lines.
    Lines,
    /// Their times, which may be wrong by so much.
    Times(u64),
}

impl Clock {
    // How much a moment may be wrong by.
    fn error(self) -> u64
        ensures { result ≡ error_of self }
    {
        match self {
            Clock::Lines => 0,
            Clock::Times(error) => error,
        }
    }

    // The moment of an event of this line and with this time, where it has one.
    pub(crate) fn moment_of(self, line: u64, time: Option<u64>) -> Option<u64>
        ensures { result ≡ moment_of self line time }
    {
        match self {
            Clock::Lines => Some(line),
            Clock::Times(_) => time,
        }
    }

    // The earliest moment at which an event of this moment may have happened.
    pub(crate) fn earliest(self, moment: u64) -> u64
        ensures { result ≡ earliest self moment }
    {
        moment.saturating_sub(self.error())
    }

    // The latest moment at which an event of this moment may have happened.
    pub(crate) fn latest(self, moment: u64) -> u64
        ensures { result ≡ latest self moment }
    {
        moment.saturating_add(self.error())
    }
}
