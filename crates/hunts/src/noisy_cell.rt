ghost use Rattle.std.specs.Prelude.{◌≡◌, ◌≢◌, IfOk, IfErr};

use crate::noise::Noise;
use book_base::NoMemory;
use crossbeam_utils::atomic::{Atom, AtomicCell};

/// An atomic cell each of whose steps is one pause of its noise, and then one step of the cell.
#[derive(Drop)]
pub struct NoisyCell<T: Atom> {
    cell: AtomicCell<T>,
    noise: Noise,
}

impl<T: Atom> NoisyCell<T> {
    /// A cell with this value, which shares the noise.
    pub fn new(noise: &Noise, value: T) -> Result<NoisyCell<T>, NoMemory> {
        Ok(NoisyCell {
            cell: AtomicCell::new(value),
            noise: noise.try_clone()?,
        })
    }

    pub fn load(&self) -> T {
        self.noise.pause();
        self.cell.load()
    }

    pub fn store(&self, value: T) {
        self.noise.pause();
        self.cell.store(value)
    }

    /// Stores a value, and answers the one that was there.
    pub fn swap(&self, value: T) -> T {
        self.noise.pause();
        self.cell.swap(value)
    }

    /// Stores `new` where `current` is there. The answer is what was there: `Ok` where it was
    /// `current`.
    pub fn compare_exchange(&self, current: T, new: T) -> Result<T, T>
        // With `Ok` the value that was there is `current`.
        ensures ok { IfOk result (λ found. found ≡ current) }
        // With `Err` it is another value, for types whose cells tell values apart.
        ensures err { T.is_exact → IfErr result (λ found. found ≢ current) }
    {
        self.noise.pause();
        self.cell.compare_exchange(current, new)
    }
}

impl NoisyCell<u32> {
    /// Adds a number, modulo 2^32, and answers the one that was there.
    pub fn fetch_add(&self, number: u32) -> u32 {
        self.noise.pause();
        self.cell.fetch_add(number)
    }
}

impl NoisyCell<u64> {
    /// Adds a number, modulo 2^64, and answers the one that was there.
    pub fn fetch_add(&self, number: u64) -> u64 {
        self.noise.pause();
        self.cell.fetch_add(number)
    }
}
