//! Which calls of an object are under way.

use book_base::NoMemory;
use std::alloc::Global;
use std::sync::Arc;
use std::sync::atomic::{AtomicBool, AtomicU64, Ordering};
use text_fields::TEXT_CALLERS;

/// More than how many calls a caller makes in a run.
const CALLS: u64 = 512;

/// How many runs are told apart.
const RUNS: u64 = 1 << 32;

// What the copies of an `Underway` have in common: for each caller the run and the number of the
// call that it is in, both in one word, which is 0 where it is in none; and whether the hunt is
// over.
#[derive(Drop)]
struct CallWords {
    words: Vec<AtomicU64>,
    over: AtomicBool,
}

/// The calls of the object that are under way, for the callers of all runs of a hunt, which write
/// them, and for its watchdog, which reads them. A call costs two stores.
#[derive(Drop)]
pub(crate) struct Underway {
    calls: Arc<CallWords, Global>,
}

impl Underway {
    /// For callers who are in no call.
    pub(crate) fn new(alloc: Global) -> Result<Underway, NoMemory> {
        let mut words = Vec::new(alloc);
        for _ in 0..TEXT_CALLERS {
            words.push(AtomicU64::new(0))?;
        }
        let calls = CallWords {
            words,
            over: AtomicBool::new(false),
        };
        Ok(Underway {
            calls: Arc::new(alloc, calls)?,
        })
    }

    /// Another copy, with which the same calls are written and read.
    pub(crate) fn try_clone(&self) -> Result<Underway, NoMemory> {
        Ok(Underway {
            calls: Arc::try_clone(&self.calls)?,
        })
    }

    /// A caller begins its call of this number, in the run of this number.
    pub(crate) fn begins(&self, run: u64, caller: u32, number: u64) {
        self.write(caller, run % RUNS * CALLS + number % CALLS + 1);
    }

    /// A caller's call has returned.
    pub(crate) fn returned(&self, caller: u32) {
        self.write(caller, 0);
    }

    fn write(&self, caller: u32, word: u64) {
        if let Some(place) = self.calls.words.get(caller as usize) {
            place.store(word, Ordering::SeqCst);
        }
    }

    /// The word of the call that a caller is in, which no other call has; 0 where it is in none.
    pub(crate) fn word(&self, caller: usize) -> u64 {
        match self.calls.words.get(caller) {
            Some(place) => place.load(Ordering::SeqCst),
            None => 0,
        }
    }

    /// The hunt makes no more runs.
    pub(crate) fn end(&self) {
        self.calls.over.store(true, Ordering::SeqCst);
    }

    /// Whether the hunt makes no more runs.
    pub(crate) fn is_over(&self) -> bool {
        self.calls.over.load(Ordering::SeqCst)
    }
}

/// The number of the call that has this word, among its caller's calls.
pub(crate) fn number_of(word: u64) -> u64 {
    word.wrapping_sub(1) % CALLS
}
