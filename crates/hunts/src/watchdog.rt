//! The watchdog of a hunt.

use crate::underway::{Underway, number_of};
use book_base::NoMemory;
use std::alloc::Global;
use std::thread::sleep;
use std::time::{Clock, Duration};
use text_fields::TEXT_CALLERS;

/// How long the watchdog sleeps between two looks, in milliseconds.
const SLEEP: u64 = 100;

/// At how many looks one after the other a caller has to be in the same call, to be told.
const LOOKS: u32 = 11;

// The call that a caller was seen in, by its word, and how often in a row.
#[derive(Clone, Copy)]
struct Seen {
    word: u64,
    looks: u32,
}

/// Looks, until the hunt is over, which callers stay in one call, and writes to standard error each
/// call that hasn't returned after a second, and when it returns later. It stops no run, and takes
/// no part in one.
pub(crate) fn watch<R: Eprint + Clock>(
    rt: &R,
    alloc: Global,
    underway: &Underway,
) -> Result<(), NoMemory> {
    let mut seen = Vec::new(alloc);
    for _ in 0..TEXT_CALLERS {
        seen.push(Seen { word: 0, looks: 0 })?;
    }
    for _ in 0..u64::MAX {
        if underway.is_over() {
            return Ok(());
        }
        look(rt, underway, &mut seen);
        sleep(rt, Duration::from_millis(SLEEP));
    }
    Ok(())
}

// Looks once at each caller.
fn look<R: Eprint>(rt: &R, underway: &Underway, seen: &mut [Seen]) {
    for (caller, before) in seen.iter_mut().enumerate() {
        let word = underway.word(caller);
        if word == before.word {
            before.looks = before.looks.saturating_add(1);
            if word != 0 && before.looks == LOOKS {
                let number = number_of(word);
                let _told = eprintln!(rt;
                    "caller {caller} has been in its call {number} for a second"
                );
            }
        } else {
            if before.word != 0 && before.looks >= LOOKS {
                let number = number_of(before.word);
                let _told = eprintln!(rt; "caller {caller} has returned from its call {number}");
            }
            *before = Seen { word, looks: 1 };
        }
    }
}
