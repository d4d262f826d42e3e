ghost use Rattle.std.specs.Prelude.{◌≡◌, ◌≤◌, ◌↔◌, ◌++◌, [], length, take, drop, Some, IsErr, IfOk, OnOk, OnErr};
ghost use Rattle.std.specs.Io.KnownBytes.{ReadConsumes};
ghost use Rattle.byte_streams.specs.Fault.{Rose};
ghost use Rattle.byte_streams.specs.Memory.{SourceState, ReadFails, after_failed_read, given_count, after_read};

use crate::failed::Failed;
use crate::pieces::fill;
use crate::source::Source;
use std::marker::Model;

/// A source in memory. It fails at the calls whose numbers it is given, and gives a limited number
/// of bytes at a time.
#[derive(Debug, Drop)]
pub struct MemorySource {
    bytes: Vec<u8>,
    at: usize,
    fails: Vec<u64>,
    most: usize,
    calls: u64,
    faults: u64,
}

impl Model for MemorySource {
    ghost use Rattle.std.specs.Prelude.{◌≤◌, drop, length};
    ghost use Rattle.byte_streams.specs.Memory.{SourceState};

    ghost Value = { SourceState };

    ghost view = { λ s. record { left = drop s.at s.bytes.items; fails = s.fails.items; most = s.most; calls = s.calls; faults = s.faults } };

    ghost invariant = { λ s. (s.at ≤ length s.bytes.items) × (1 ≤ s.most) };
}

impl MemorySource {
    /// A source of these bytes. A read gives at most `most` bytes, and fails exactly where the
    /// number of the call, counted from 1, is in `fails`.
    pub fn new(bytes: Vec<u8>, fails: Vec<u64>, most: usize) -> MemorySource
        // A read may give at least one byte.
        requires { 1 ≤ most }
        // The source has all of `bytes` left, has counted no call and no fault, and has the failing
        // calls `fails` and the bound `most`.
        ensures { result ≡
            record { left = bytes.items; fails = fails.items; most = most; calls = 0; faults = 0 } }
    {
        MemorySource {
            bytes,
            at: 0,
            fails,
            most,
            calls: 0,
            faults: 0,
        }
    }
}

impl Source for MemorySource {
    ghost left = { λ s. Some s.left };

    ghost faults = { λ s. s.faults };

    fn read(&mut self, piece: &mut [u8]) -> Result<usize, Failed>
        // A read gives no more bytes than the piece has.
        ensures bound { IfOk result (λ count. count ≤ length piece.old) }
        // The bytes that are given to the piece are taken off the source. A read gives none only at
        // the source's end or to an empty piece, and a failed read takes none off.
        ensures bytes { ReadConsumes (Some self.old.left) (Some self.new.left) result piece.new }
        // The source's count of faults is at least what it was before.
        ensures later { self.old.faults ≤ self.new.faults }
        // A read that failed raised the count of faults.
        ensures cause { OnErr result (Rose self.old.faults self.new.faults) }
        // A read that didn't fail didn't change the count of faults.
        ensures calm { OnOk result (self.new.faults ≡ self.old.faults) }

        // A read fails exactly where the number of the call is one that fails.
        ensures fails { IsErr result ↔ ReadFails self.old }
        // A failed read gives nothing, and counts as a call and as a fault.
        ensures failed { OnErr result (self.new ≡ after_failed_read self.old) }

        // A read gives as many bytes as the piece, `most` and the bytes left allow.
        ensures count { IfOk result (λ count. count ≡ given_count self.old (length piece.old)) }
        // The piece begins with the bytes that are given, and is as before after them.
        ensures given { IfOk result
            (λ count. piece.new ≡ take count self.old.left ++ drop count piece.old) }
        // A read takes as many bytes off the source as are answered, and counts as a call.
        ensures after { IfOk result (λ count. self.new ≡ after_read self.old count) }
    {
        self.calls = self.calls.saturating_add(1);
        if self.fails.contains(&self.calls) {
            self.faults = self.faults.saturating_add(1);
            return Err(Failed);
        }
        let count = fill(piece, &self.bytes[self.at..], self.most);
        self.at += count;
        Ok(count)
    }
}
