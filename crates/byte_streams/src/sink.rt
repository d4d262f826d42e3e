ghost use Rattle.std.specs.Prelude.{◌≡◌, ℕ, ◌≤◌, List, length, Option, IfOk};
ghost use Rattle.std.specs.Io.KnownBytes.{WriteAppends};
ghost use Rattle.byte_streams.specs.Fault.{Rose};
ghost use Rattle.byte_streams.specs.Told.{IsRefusal};

use crate::failed::Failed;

/// A sink of bytes, which a program writes to.
pub trait Sink {
    /// The bytes that the sink has taken, where it tells them.
    ghost taken: { Self → Option (List ℕ) };

    /// How many writes failed, or took nothing of a piece that isn't empty. The count never falls,
    /// and rises at such writes alone.
    ghost faults: { Self → ℕ };

    /// Takes the first bytes of the piece, and answers how many bytes it took.
    fn write(&mut self, piece: &[u8]) -> Result<usize, Failed>
        // A write takes no more bytes than the piece has.
        ensures bound { IfOk result (λ count. count ≤ length piece.now) }
        // The sink has taken the first bytes of the piece, as many as are answered, and none where
        // the write failed.
        ensures bytes { WriteAppends (taken self.old) (taken self.new) result piece.now }
        // The sink's count of faults is at least what it was before.
        ensures later { faults self.old ≤ faults self.new }
        // A write that failed, or took nothing of a piece that isn't empty, raised the count of
        // faults.
        ensures cause { IsRefusal result piece.now → Rose (faults self.old) (faults self.new) }
        // A write that wasn't refused didn't change the count of faults.
        ensures calm { ¬ IsRefusal result piece.now → faults self.new ≡ faults self.old };
}
