ghost use Rattle.std.specs.Prelude.{◌≡◌, []};
ghost use Rattle.row_table.specs.Holders.{has, only};
ghost use Rattle.shared_words.specs.Histories.{known};

use crate::plays::Histories;
use atomic_table::Seat;
use row_table::Held;

/// The seat of one caller of shared words. It knows the history up to the last access of this
/// caller, and has no other caller's history.
#[derive(Drop)]
pub struct WordSeat {
    pub(crate) who: u32,
    pub(crate) seat: Seat<(), Held<Histories>>,
    ghost alone: { seat.me ≡ (only who (known (has seat.me.0 who)), []) },
}

impl WordSeat {
    ghost use Rattle.shared_words.specs.Passes.{caller_of_seat};

    /// The number of the seat's caller.
    pub fn caller(&self) -> u32
        ensures { result ≡ caller_of_seat self.now }
    {
        self.who
    }
}
