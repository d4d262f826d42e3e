ghost use Rattle.std.specs.Prelude.{◌≡◌, ℕ, ◌<◌, [], length};
ghost use Rattle.shared_words.specs.Entries.{calls_by};
ghost use Rattle.row_table.specs.Holders.{has, only};
ghost use Rattle.shared_words.specs.Hands.{the};

use crate::entry::Entry;
use crate::log_plays::Hands;
use atomic_table::Seat;
use row_table::Held;

/// The seat of one caller, with the hand of this caller alone.
pub struct OneSeat {
    pub who: u32,
    pub seat: Seat<(), Held<Hands>>,
    ghost alone: { seat.me ≡ (only who (the (has seat.me.0 who)), []) },
}

/// The seat of one caller of a log, with the log as far as this caller knows it.
///
/// All calls of the caller are in this log, so it ends with the last of them, or is empty.
pub struct LogSeat {
    pub(crate) cap: u64,
    pub(crate) made: u64,
    pub(crate) log: Vec<Entry>,
    pub(crate) seat: OneSeat,
    ghost knows: { (the (has seat.seat.me.0 seat.who)).log ≡ log.items },
    ghost idle: { (the (has seat.seat.me.0 seat.who)).staged ≡ [] },
    ghost counted: { made ≡ length (calls_by seat.who log.items) },
}

impl LogSeat {
    ghost use Rattle.shared_words.specs.Seats.{caller_of, cap_of_seat, log_of, made_by};

    /// The number of the seat's caller.
    pub fn caller(&self) -> u32
        ensures { result ≡ caller_of self.now }
    {
        self.seat.who
    }

    /// How many calls the seat's caller may make.
    pub fn cap(&self) -> u64
        ensures { result ≡ cap_of_seat self.now }
    {
        self.cap
    }

    /// How many calls the seat's caller has made.
    pub fn made(&self) -> u64
        ensures { result ≡ made_by self.now }
    {
        self.made
    }

    /// The log up to the last call of the seat's caller.
    pub fn log(&self) -> &[Entry]
        ensures { result.now ≡ log_of self.now }
    {
        &self.log
    }
}
