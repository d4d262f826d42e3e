use std::alloc::Global;

/// The most allocations that are used up after a work.
const MOST: u64 = 4_000;

/// Uses up this many allocations. The answer is false where one was refused.
pub fn use_up(alloc: Global, count: u64) -> bool {
    for number in 0..count {
        if !use_up_one(alloc, number) {
            return false;
        }
    }
    true
}

/// Uses up allocations until one is refused, and answers how many were had before; `None` where
/// `MOST` were had.
pub fn use_up_all(alloc: Global) -> Option<u64> {
    (0..MOST).find(|number| !use_up_one(alloc, *number))
}

// Whether a number can be kept in memory of its own. The number is read back, so that the
// allocation isn't left out.
fn use_up_one(alloc: Global, number: u64) -> bool {
    let mut kept = Vec::new(alloc);
    kept.push(number).is_ok() && kept.first() == Some(&number)
}
