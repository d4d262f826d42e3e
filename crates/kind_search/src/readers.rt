//! How the operations and replies of four kinds are read as puts and takes of values.

ghost use Rattle.kind_search.specs.Readings.{queue_reading, stack_reading};
ghost use Rattle.kind_search.specs.PqueueReading.{pqueue_reading};
ghost use Rattle.kind_search.specs.RegisterReading.{register_reading};

use book_base::OpWord;
use legal_orders::{Reader, Role};
use seq_objects::{
    PqueueOperation, QueueOperation, RegisterOperation, StackOperation, shown_value,
};

/// Reads a queue: an enqueue puts a value in, and a dequeue takes one out.
pub struct QueueReader;

impl Reader for QueueReader {
    ghost reading = { λ _. queue_reading };

    fn role(&self, op: OpWord) -> Role {
        match QueueOperation::from_word(op) {
            Some(QueueOperation::Enqueue(value)) => Role::Put(u64::from(value)),
            Some(QueueOperation::Dequeue) => Role::Take,
            None => Role::Other,
        }
    }

    fn shown(&self, reply: u64) -> Option<u64> {
        shown_value(reply)
    }
}

/// Reads a stack: a push puts a value in, and a pop takes one out.
pub struct StackReader;

impl Reader for StackReader {
    ghost reading = { λ _. stack_reading };

    fn role(&self, op: OpWord) -> Role {
        match StackOperation::from_word(op) {
            Some(StackOperation::Push(value)) => Role::Put(u64::from(value)),
            Some(StackOperation::Pop) => Role::Take,
            None => Role::Other,
        }
    }

    fn shown(&self, reply: u64) -> Option<u64> {
        shown_value(reply)
    }
}

/// Reads a register: a write counts as a put of its value, and a read as a take, which doesn't
/// remove the value.
pub struct RegisterReader;

impl Reader for RegisterReader {
    ghost reading = { λ _. register_reading };

    fn role(&self, op: OpWord) -> Role {
        match RegisterOperation::from_word(op) {
            Some(RegisterOperation::Write(value)) => Role::Put(u64::from(value)),
            Some(RegisterOperation::Read) => Role::Take,
            None => Role::Other,
        }
    }

    fn shown(&self, reply: u64) -> Option<u64> {
        shown_value(reply)
    }
}

/// Reads a priority queue: an insert puts a value in, and a min takes one out.
pub struct PqueueReader;

impl Reader for PqueueReader {
    ghost reading = { λ _. pqueue_reading };

    fn role(&self, op: OpWord) -> Role {
        match PqueueOperation::from_word(op) {
            Some(PqueueOperation::Insert(value)) => Role::Put(u64::from(value)),
            Some(PqueueOperation::Min) => Role::Take,
            None => Role::Other,
        }
    }

    fn shown(&self, reply: u64) -> Option<u64> {
        shown_value(reply)
    }
}
