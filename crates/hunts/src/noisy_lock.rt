use crate::noise::Noise;
use crate::short_wait::lock_or_give_up;
use book_base::NoMemory;
use std::sync::{Mutex, MutexGuard};

/// A lock with a pause of its noise before it is tried, and another one once it is taken.
#[derive(Drop)]
pub struct NoisyLock<T> {
    value: Mutex<T>,
    noise: Noise,
}

impl<T> NoisyLock<T> {
    /// A lock round this value, which shares the noise.
    pub fn new(noise: &Noise, value: T) -> Result<NoisyLock<T>, NoMemory>
    where
        T: Drop,
    {
        Ok(NoisyLock {
            noise: noise.try_clone()?,
            value: Mutex::new(value),
        })
    }

    /// The lock, once no other thread has it; or none, where it isn't free for some minutes, as
    /// `lock_or_give_up` says.
    pub fn lock(&self) -> Option<MutexGuard<'_, T>> {
        self.noise.pause();
        let guard = lock_or_give_up(&self.value)?;
        self.noise.pause();
        Some(guard)
    }

    /// The lock, where no other thread has it now.
    pub fn try_lock(&self) -> Option<MutexGuard<'_, T>> {
        self.noise.pause();
        let guard = self.value.try_lock()?;
        self.noise.pause();
        Some(guard)
    }
}
