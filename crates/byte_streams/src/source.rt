ghost use Rattle.std.specs.Prelude.{◌≡◌, ℕ, ◌≤◌, List, length, Option, IfOk, OnOk, OnErr};
ghost use Rattle.std.specs.Io.KnownBytes.{ReadConsumes};
ghost use Rattle.byte_streams.specs.Fault.{Rose};

use crate::failed::Failed;

/// A source of bytes, which a program reads.
pub trait Source {
    /// The bytes that are left, where the source tells them.
    ghost left: { Self → Option (List ℕ) };

    /// How often the source has failed. The count never falls, and rises at a failure alone.
    ghost faults: { Self → ℕ };

    /// Fills the first places of the piece, and answers how many bytes it gave. Where it gives none
    /// for a piece that isn't empty, the input is at its end.
    fn read(&mut self, piece: &mut [u8]) -> Result<usize, Failed>
        // A read gives no more bytes than the piece has.
        ensures bound { IfOk result (λ count. count ≤ length piece.old) }
        // The bytes that are given to the piece are taken off the source. A read gives none only at
        // the source's end or to an empty piece, and a failed read takes none off.
        ensures bytes { ReadConsumes (left self.old) (left self.new) result piece.new }
        // The source's count of faults is at least what it was before.
        ensures later { faults self.old ≤ faults self.new }
        // A read that failed raised the count of faults.
        ensures cause { OnErr result (Rose (faults self.old) (faults self.new)) }
        // A read that didn't fail didn't change the count of faults.
        ensures calm { OnOk result (faults self.new ≡ faults self.old) };
}
