use book_base::NoMemory;
use client_scripts::{draw, key_of};
use std::alloc::Global;
use std::sync::Arc;
use std::sync::atomic::{AtomicU64, Ordering};
use std::thread::yield_now;

/// How often noise yields the thread, and how many times in a row.
#[derive(Clone, Copy, Debug, Default, PartialEq, Eq)]
pub struct Loudness {
    /// At how many of 256 pauses noise yields on average: at none where this is 0.
    pub share: u32,
    /// How many times in a row noise yields the thread at one pause, at most.
    pub most: u32,
}

// What the copies of a noise have in common.
#[derive(Drop)]
struct Pauses {
    key: u64,
    loudness: Loudness,
    made: AtomicU64,
}

/// Noise for the callers of a run, which they share: at a pause it yields the thread or not, as the
/// seed decides for the pauses in the order in which they come. So calls overlap which else would
/// each end before the next one begins.
#[derive(Drop)]
pub struct Noise {
    pauses: Arc<Pauses, Global>,
}

impl Noise {
    /// The noise of a seed, before its first pause.
    pub fn new(alloc: Global, seed: u64, loudness: Loudness) -> Result<Noise, NoMemory> {
        let pauses = Pauses {
            key: key_of(seed),
            loudness,
            made: AtomicU64::new(0),
        };
        Ok(Noise {
            pauses: Arc::new(alloc, pauses)?,
        })
    }

    /// Another copy of this noise: its pauses are counted together with those of this one.
    pub fn try_clone(&self) -> Result<Noise, NoMemory> {
        Ok(Noise {
            pauses: Arc::try_clone(&self.pauses)?,
        })
    }

    /// Makes one pause: it yields the thread some times in a row, or not at all, as the seed
    /// decides for the number of this pause.
    pub fn pause(&self) {
        let Pauses {
            key,
            loudness,
            made,
        } = &*self.pauses;
        let drawn = draw(*key, made.fetch_add(1, Ordering::SeqCst));
        if drawn % 256 < loudness.share {
            for _ in 0..yields(drawn / 256, loudness.most) {
                yield_now();
            }
        }
    }
}

/// How many times in a row a draw yields: at least once and at most `most` times, but never where
/// `most` is 0.
fn yields(draw: u32, most: u32) -> u32 {
    if most == 0 { 0 } else { draw % most + 1 }
}
