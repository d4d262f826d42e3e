ghost use Rattle.std.specs.Prelude.{◌≡◌, ℕ, ◌+◌, ◌<◌, ◌≤◌, [], All, length, replicate, slice_index_or, slice_set, None, vec_len};
ghost use Rattle.test_objects.specs.Scratches.{KeepsCapacity};
ghost use Rattle.test_objects.specs.Replays.{list_after};
ghost use Rattle.test_objects.specs.Calls.{unless, is_put};
ghost use Rattle.test_objects.specs.Changes.{waiting_count};
ghost use Rattle.test_objects.specs.Late.{waiting_call, waiting_of, waits_after, late_changes, late_reply};

use crate::{Entry, Machine, Scratch, calls};
use book_base::{GrowsByOne, OpWord};

/// The machine that is late: a put gets its lawful reply, but its change is made only at the next
/// call of its caller, before that call.
#[derive(Clone, Copy, Debug)]
pub struct Late<S: GrowsByOne> {
    pub object: S,
}

impl<S: GrowsByOne> Late<S> {
    // Applies the waiting operation of a caller to the state, if there is one.
    fn make_waiting(&self, caller: usize, scratch: &mut Scratch)
        requires caller { caller < vec_len scratch.old.waiting }
        requires room { length scratch.old.state.words < scratch.old.state.room }
        ensures list { scratch.new.state.words ≡ list_after
            (S.spec self.now.object).next scratch.old.state.words
            (waiting_call caller (slice_index_or scratch.old.waiting.items caller None)) }
        ensures waiting { scratch.new.waiting.items
            ≡ slice_set scratch.old.waiting.items caller None }
        ensures count { length scratch.new.state.words + waiting_count scratch.new.waiting.items
            ≤ length scratch.old.state.words + waiting_count scratch.old.waiting.items }
        ensures room { KeepsCapacity scratch.old scratch.new }
    {
        if let Some(op) = scratch.waiting[caller].take() {
            self.object.step(&mut scratch.state, op);
        }
    }

    // Makes the changes of a call: applies the waiting operation of its caller, and then its own
    // operation, unless that is a put, which then waits.
    fn turn(&self, entry: &Entry, scratch: &mut Scratch)
        requires caller { entry.now.caller < vec_len scratch.old.waiting }
        requires room { length scratch.old.state.words + waiting_count scratch.old.waiting.items
            < scratch.old.state.room }
        ensures list { scratch.new.state.words ≡ list_after (S.spec self.now.object).next
            (list_after (S.spec self.now.object).next scratch.old.state.words (waiting_call
            entry.now.caller (slice_index_or scratch.old.waiting.items entry.now.caller None)))
            (unless (is_put entry.now.op) entry.now) }
        ensures waiting { scratch.new.waiting.items
            ≡ slice_set scratch.old.waiting.items entry.now.caller (waits_after entry.now.op) }
        ensures count { length scratch.new.state.words + waiting_count scratch.new.waiting.items
            ≤ length scratch.old.state.words + waiting_count scratch.old.waiting.items + 1 }
        ensures room { KeepsCapacity scratch.old scratch.new }
    {
        let caller = entry.caller as usize;
        self.make_waiting(caller, scratch);
        if calls::is_put(entry.op) {
            scratch.waiting[caller] = Some(entry.op);
        } else {
            self.object.step(&mut scratch.state, entry.op);
        }
    }
}

impl<S: GrowsByOne> Late<S> {
    // Makes the changes of the calls of a log, in order, where no operation waits before the first
    // call.
    fn replay(&self, log: &[Entry], scratch: &mut Scratch)
        requires callers { All (λ e. e.caller < vec_len scratch.old.waiting) log.now }
        requires none { waiting_count scratch.old.waiting.items ≡ 0 }
        requires room { length scratch.old.state.words + length log.now ≤ scratch.old.state.room }
        ensures list { scratch.new.state.words ≡ list_after
            (S.spec self.now.object).next scratch.old.state.words (late_changes [] log.now) }
        ensures waiting { (i : ℕ) → i < vec_len scratch.old.waiting
            → slice_index_or scratch.new.waiting.items i None ≡ waiting_of i log.now }
        ensures count { length scratch.new.state.words + waiting_count scratch.new.waiting.items
            ≤ length scratch.old.state.words + length log.now }
        ensures room { KeepsCapacity scratch.old scratch.new }
    {
        for entry in log {
            self.turn(entry, scratch);
        }
    }
}

// Clears the waiting operation of each caller.
fn clear(waiting: &mut Vec<Option<OpWord>>)
    ensures { waiting.new.items ≡ replicate (vec_len waiting.old) None }
{
    for place in 0..waiting.len() {
        waiting[place] = None;
    }
}

impl<S: GrowsByOne> Machine for Late<S> {
    ghost reply_to = { λ m. late_reply (S.spec m.object) };

    fn answer(&self, log: &[Entry], scratch: &mut Scratch) -> u64 {
        let last = log.len() - 1;
        self.object.reset(&mut scratch.state);
        clear(&mut scratch.waiting);
        self.replay(&log[..last], scratch);
        self.make_waiting(log[last].caller as usize, scratch);
        self.object.step(&mut scratch.state, log[last].op)
    }
}
