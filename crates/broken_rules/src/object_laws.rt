//! Laws on the runs of the sequential objects. Each is the contract of a function with an empty
//! body. A run begins with the object's first list.

ghost use Rattle.seq_objects.specs.declared.kind.Kind.TheVariants as kinds;
ghost use Rattle.seq_objects.specs.Words as words;
ghost use Rattle.kind_search.specs.Readings.{queue_reading, stack_reading};
ghost use Rattle.broken_rules.specs.Runs.{AreDone};
ghost use Rattle.broken_rules.specs.CounterRuns.{IncrementsAreCounted};
ghost use Rattle.broken_rules.specs.RegisterRuns.{ReadsGiveTheLastWrite, ReadsGiveZeroAtFirst};
ghost use Rattle.broken_rules.specs.SetRuns.{HasTells, AddTells, RemoveTells};
ghost use Rattle.broken_rules.specs.MapRuns.{KeysAreHeldOnce};
ghost use Rattle.broken_rules.specs.Removals.{TakesTakeWhatWasPut, DequeuesGiveTheOldest, PopsGiveTheNewest, pqueue_reading, MinsGiveTheLeast, ComesOutAtMostAsOften};

/// A counter replies to each increment how many increments came before it, modulo 2^32.
pub fn counters_count()
    ensures { IncrementsAreCounted }
{}

/// A register gives the value that was written last, and 0 before the first write.
pub fn registers_give_the_last_write()
    // The reply to a read is the value of the last write before it.
    ensures last { ReadsGiveTheLastWrite }
    // The reply to a read with no write before it is 0.
    ensures first { ReadsGiveZeroAtFirst }
    // The reply to each write is done.
    ensures done { AreDone kinds.Register words.write }
{}

/// A set's replies say whether an add of a value stands: whether there is one without a later
/// remove of the value.
pub fn sets_tell_what_stands()
    // The reply to `has` says whether an add of the value, without a later remove of it, stands
    // before it.
    ensures has { HasTells }
    // The reply to `add` says whether no add of the value stands before it.
    ensures add { AddTells }
    // The reply to `remove` says whether an add of the value stands before it.
    ensures remove { RemoveTells }
{}

/// A map holds each key once: at most one item of its list has a given key.
pub fn maps_hold_each_key_once()
    ensures { KeysAreHeldOnce }
{}

/// A queue gives the values in the order in which they were put in.
pub fn queues_give_the_oldest()
    // The reply to a dequeue is the first of the values put in that wasn't given out yet, or none
    // where all values were given out.
    ensures order { DequeuesGiveTheOldest }
    // The reply to each enqueue is done.
    ensures done { AreDone kinds.Queue words.enq }
{}

/// A stack gives the last value put in that wasn't given out yet.
pub fn stacks_give_the_newest()
    // The reply to a pop is the last value put in that wasn't given out yet, or none where all
    // values were given out.
    ensures order { PopsGiveTheNewest }
    // The reply to each push is done.
    ensures done { AreDone kinds.Stack words.push }
{}

/// A priority queue gives the least value that is in it, and each value at most as often as it was
/// put in.
pub fn priority_queues_give_the_least()
    // The reply to `min` is the least value in the priority queue, or none where no value is in it.
    ensures least { MinsGiveTheLeast }
    // Each value comes out at most as often as it was put in.
    ensures often { ComesOutAtMostAsOften }
    // The reply to each insert is done.
    ensures done { AreDone kinds.Pqueue words.insert }
{}

/// A value that is taken was put in before, more often than it was given out before. So each value
/// comes out at most as often as it was put in.
pub fn takes_take_what_was_put()
    // Where a dequeue of a queue gives a value, this value was put in before the dequeue more often
    // than it was given out before.
    ensures queues { TakesTakeWhatWasPut kinds.Queue queue_reading }
    // Where a pop of a stack gives a value, this value was put in before the pop more often than it
    // was given out before.
    ensures stacks { TakesTakeWhatWasPut kinds.Stack stack_reading }
    // Where a `min` of a priority queue gives a value, this value was put in before the `min` more
    // often than it was given out before.
    ensures pqueues { TakesTakeWhatWasPut kinds.Pqueue pqueue_reading }
{}
