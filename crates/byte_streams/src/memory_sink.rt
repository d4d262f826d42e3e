ghost use Rattle.std.specs.Prelude.{◌≡◌, ◌≤◌, ◌↔◌, [], length, take, Some, IsErr, IfOk, OnErr};
ghost use Rattle.std.specs.Io.KnownBytes.{WriteAppends};
ghost use Rattle.byte_streams.specs.Fault.{Rose};
ghost use Rattle.byte_streams.specs.Told.{IsRefusal};
ghost use Rattle.byte_streams.specs.Memory.{SinkState, WriteFails, after_failed_write, taken_count, after_write};

use crate::failed::Failed;
use crate::sink::Sink;
use book_base::NoMemory;
use std::alloc::Global;
use std::marker::Model;

/// A sink in memory with a fixed capacity. It fails at the calls whose numbers it is given, and
/// takes a limited number of bytes at a time. Memory for its capacity is taken when the sink is
/// made, so that no write takes memory.
#[derive(Debug, Drop)]
pub struct MemorySink {
    bytes: Vec<u8>,
    room: usize,
    fails: Vec<u64>,
    most: usize,
    calls: u64,
    faults: u64,
}

impl Model for MemorySink {
    ghost use Rattle.std.specs.Prelude.{◌≤◌, length, vec_capacity};
    ghost use Rattle.byte_streams.specs.Memory.{SinkState};

    ghost Value = { SinkState };

    ghost view = { λ s. record { taken = s.bytes.items; room = s.room; fails = s.fails.items; most = s.most; calls = s.calls; faults = s.faults } };

    ghost invariant = { λ s. (length s.bytes.items ≤ s.room) × (s.room ≤ vec_capacity s.bytes) × (1 ≤ s.most) };
}

impl MemorySink {
    /// A sink with this capacity. A write takes at most `most` bytes, and fails exactly where the
    /// number of the call, counted from 1, is in `fails`, or where no capacity is left for a piece
    /// that isn't empty.
    pub fn new(
        alloc: Global,
        room: usize,
        fails: Vec<u64>,
        most: usize,
    ) -> Result<MemorySink, NoMemory>
        // A write may take at least one byte.
        requires { 1 ≤ most }
        // The sink has taken nothing and counted no call and no fault, and has the capacity `room`,
        // the failing calls `fails` and the bound `most`.
        ensures { IfOk result (λ sink. sink ≡ record {
          taken = [];
          room = room;
          fails = fails.items;
          most = most;
          calls = 0;
          faults = 0;
        }) }
    {
        let bytes = Vec::with_capacity(alloc, room)?;
        Ok(MemorySink {
            bytes,
            room,
            fails,
            most,
            calls: 0,
            faults: 0,
        })
    }

    /// The bytes that the sink has taken.
    pub fn bytes(&self) -> &[u8]
        // The answer is the bytes that the sink has taken.
        ensures taken { result.now ≡ self.now.taken }
        // The sink has taken at most as many bytes as its capacity.
        ensures room { length self.now.taken ≤ self.now.room }
    {
        &self.bytes
    }
}

impl Sink for MemorySink {
    ghost taken = { λ s. Some s.taken };

    ghost faults = { λ s. s.faults };

    fn write(&mut self, piece: &[u8]) -> Result<usize, Failed>
        // A write takes no more bytes than the piece has.
        ensures bound { IfOk result (λ count. count ≤ length piece.now) }
        // The sink has taken the first bytes of the piece, as many as are answered, and none where
        // the write failed.
        ensures bytes { WriteAppends (Some self.old.taken) (Some self.new.taken) result piece.now }
        // The sink's count of faults is at least what it was before.
        ensures later { self.old.faults ≤ self.new.faults }
        // A write that failed, or took nothing of a piece that isn't empty, raised the count of
        // faults.
        ensures cause { IsRefusal result piece.now → Rose self.old.faults self.new.faults }
        // A write that wasn't refused didn't change the count of faults.
        ensures calm { ¬ IsRefusal result piece.now → self.new.faults ≡ self.old.faults }

        // A write fails exactly where the number of the call is one that fails, or where no
        // capacity is left for a piece that isn't empty.
        ensures fails { IsErr result ↔ WriteFails self.old piece.now }
        // A failed write takes nothing, and counts as a call and as a fault.
        ensures failed { OnErr result (self.new ≡ after_failed_write self.old) }

        // A write takes as many bytes as the piece, `most` and the capacity left allow.
        ensures count { IfOk result (λ count. count ≡ taken_count self.old (length piece.now)) }
        // A write takes the first bytes of the piece, as many as are answered, and counts as a
        // call.
        ensures after { IfOk result
            (λ count. self.new ≡ after_write self.old (take count piece.now)) }
    {
        self.calls = self.calls.saturating_add(1);
        let free = self.room - self.bytes.len();
        if self.fails.contains(&self.calls) || (!piece.is_empty() && free == 0) {
            self.faults = self.faults.saturating_add(1);
            return Err(Failed);
        }
        let count = piece.len().min(self.most).min(free);
        self.bytes.extend_from_slice(&piece[..count]).unwrap();
        Ok(count)
    }
}
