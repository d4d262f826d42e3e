ghost use Rattle.std.specs.Prelude.{◌≡◌, ◌++◌, length, min, take, drop, Some, IfOk, IsOkAnd};

use crate::failed::Failed;
use crate::pieces::fill;
use crate::source::Source;
use std::marker::Model;

/// A source in memory that never fails. Clauses see it as the list of the bytes that are left.
#[derive(Debug, Drop)]
pub struct SteadySource {
    bytes: Vec<u8>,
    at: usize,
}

impl Model for SteadySource {
    ghost use Rattle.std.specs.Prelude.{ℕ, ◌≤◌, List, drop, length};

    ghost Value = { List ℕ };

    ghost view = { λ s. drop s.at s.bytes.items };

    ghost invariant = { λ s. s.at ≤ length s.bytes.items };
}

impl SteadySource {
    /// A source of these bytes.
    pub fn new(bytes: Vec<u8>) -> SteadySource
        ensures { result ≡ bytes.items }
    {
        SteadySource { bytes, at: 0 }
    }
}

impl Source for SteadySource {
    ghost left = { λ s. Some s };

    ghost faults = { λ _. 0 };

    fn read(&mut self, piece: &mut [u8]) -> Result<usize, Failed>
        // A read never fails, and gives as many bytes as the piece and the bytes left allow.
        ensures count { IsOkAnd result (λ count. count ≡ min (length piece.old) (length self.old)) }
        // The piece begins with the bytes that are given, and is as before after them.
        ensures given { IfOk result
            (λ count. piece.new ≡ take count self.old ++ drop count piece.old) }
        // The source has lost as many bytes as are answered.
        ensures after { IfOk result (λ count. self.new ≡ drop count self.old) }
    {
        let count = fill(piece, &self.bytes[self.at..], piece.len());
        self.at += count;
        Ok(count)
    }
}
