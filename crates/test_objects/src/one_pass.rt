ghost use Rattle.std.specs.Prelude.{◌≡◌, ◌+◌, ◌*◌, ◌<◌, ◌≤◌};
ghost use mathlib.Core.List.{IsPrefix};
ghost use Rattle.shared_words.specs.Passes.{callers_of, cap_of, count_of, caller_of_seat, history_of, deeds_of, IsSeatOf};
ghost use Rattle.test_objects.specs.FaultyForms.{dequeue, queue_may, IsEnqueued, IsDequeued, IsOnePass, IsQueueReply};
ghost use Rattle.test_objects.specs.FaultyTogether.{TellOneQueue, IsNoneOrGiven};

use crate::word_object::{WordCalls, WordObject};
use book_base::{BAD, OpWord};
use seq_objects::{DONE, NONE, wrapping_value_reply};
use shared_words::{SharedWords, Usage, WordSeat};

/// The operation word of the enqueue of 0. The operation word of the enqueue of a value is this one
/// plus the value.
const ENQUEUE_0: OpWord = 1 << 32;

/// The operation word of the dequeue.
const DEQUEUE: OpWord = 2 << 32;

/// Callers of a one-pass queue add to its counter and load it, put items into places, and take what
/// is in a place.
pub struct QueueDeeds;

impl Usage for QueueDeeds {
    ghost may = { queue_may };
}

// How many places the queue has: one for each call that its callers may make.
fn places(words: &SharedWords<QueueDeeds>) -> u64
    ensures count { result ≡ callers_of words.now * cap_of words.now }
    ensures few { result ≤ 4096 }
{
    words.callers() as u64 * words.cap()
}

// Makes an enqueue of a value: gets a place by adding 1 to the counter, and puts the value there,
// if the queue has this place.
fn enqueue(words: &SharedWords<QueueDeeds>, seat: &mut WordSeat, value: u64)
    requires words { count_of words.now ≡ 1 + callers_of words.now * cap_of words.now }
    requires seat { IsSeatOf queue_may words.now seat.old }
    requires value { value < 4294967296 }
    ensures seat { IsSeatOf queue_may words.now seat.new }
    ensures caller { caller_of_seat seat.new ≡ caller_of_seat seat.old }
    ensures call { IsEnqueued (callers_of words.now * cap_of words.now) value
        (deeds_of seat.old) (deeds_of seat.new) }
    ensures history { IsPrefix (history_of seat.old) (history_of seat.new) }
{
    let place = words.add(seat, 0, 1);
    if place < places(words) {
        words.store(seat, 1 + place as usize, value + 1);
    }
}

// Makes a dequeue: one pass through the places below the counter, up to the first item that it
// finds. Returns the reply.
fn dequeue(words: &SharedWords<QueueDeeds>, seat: &mut WordSeat) -> u64
    requires words { count_of words.now ≡ 1 + callers_of words.now * cap_of words.now }
    requires seat { IsSeatOf queue_may words.now seat.old }
    ensures seat { IsSeatOf queue_may words.now seat.new }
    ensures caller { caller_of_seat seat.new ≡ caller_of_seat seat.old }
    ensures call { IsDequeued (callers_of words.now * cap_of words.now) result
        (deeds_of seat.old) (deeds_of seat.new) }
    ensures history { IsPrefix (history_of seat.old) (history_of seat.new) }
    ensures given { IsNoneOrGiven (caller_of_seat seat.old) result (history_of seat.new) }
{
    let counter = words.load(seat, 0);
    for place in 0..counter.min(places(words)) as usize {
        let found = words.swap(seat, 1 + place, 0);
        if found != 0 {
            return wrapping_value_reply(found - 1);
        }
    }
    NONE
}

impl WordCalls for QueueDeeds {
    ghost count = { λ n cap. 1 + n * cap };

    ghost call = { λ n cap caller. IsOnePass (n * cap) };

    // The reply is `done` to an enqueue, a value or `none` to the dequeue, and `bad` to any other
    // operation.
    ghost form = { IsQueueReply };

    // The reply to a dequeue is `none`, or gives the item that the call's last access took out of a
    // place: the last access to this place before it was the store that put the item there.
    ghost known = { λ caller op reply history. op ≡ dequeue → IsNoneOrGiven caller reply history };

    // The additions to the counter found 0, 1 and so on, modulo 2^64, so that the places are given
    // in order; and each exchange that found an item in a place took the one that the last access
    // to this place before it, a store, had put there.
    ghost tells = { λ n cap. TellOneQueue (n * cap) n };

    fn count(n: u32, cap: u64) -> usize {
        1 + n as usize * cap as usize
    }

    fn reply(words: &SharedWords<QueueDeeds>, seat: &mut WordSeat, op: OpWord) -> u64 {
        if op == DEQUEUE {
            return dequeue(words, seat);
        }
        if op < ENQUEUE_0 || op > DEQUEUE {
            return BAD;
        }
        enqueue(words, seat, (op - ENQUEUE_0) as u64);
        DONE
    }

    fn tells_together() {}
}

/// The array queue of Herlihy and Wing (1990) with a dequeue that gives up: it goes through the
/// places once, and replies that there is no item where it found each of them empty.
pub type OnePass = WordObject<QueueDeeds>;
