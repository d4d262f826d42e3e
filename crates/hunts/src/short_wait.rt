use std::sync::{Mutex, MutexGuard};
use std::thread::yield_now;

/// How often a lock that another thread has is tried at most. All tries together take some minutes.
const TRIES: u64 = 1 << 32;

/// The lock, once no other thread has it; or none, where it isn't free for some minutes. A call of
/// an object under test has to return, so it takes no lock for which it may wait without end.
pub fn lock_or_give_up<T>(value: &Mutex<T>) -> Option<MutexGuard<'_, T>> {
    for _ in 0..TRIES {
        if let Some(guard) = value.try_lock() {
            return Some(guard);
        }
        yield_now();
    }
    None
}
