ghost use Rattle.std.specs.Prelude.{◌≡◌};
ghost use Rattle.shared_words.specs.declared.seat.LogSeat.{LogSeat as OwnSeat};

use crate::seat::LogSeat;

/// A value that has the seat of one caller of a log: the seat itself, or a seat with what a layer
/// above keeps beside it.
pub trait Seated {
    /// The seat of the value.
    ghost seat: { Self → OwnSeat };

    /// Takes the seat out of the value, and drops the rest of it.
    fn into_seat(self) -> LogSeat
        ensures { result ≡ seat self };
}

impl Seated for LogSeat {
    ghost seat = { λ s. s };

    fn into_seat(self) -> LogSeat {
        self
    }
}
