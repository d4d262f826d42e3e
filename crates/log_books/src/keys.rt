//! The calls of a log by their keys.

ghost use Rattle.std.specs.Prelude.{IfOk, map};
ghost use Rattle.log_books.specs.Keys.{key_at, AreAllKeysOf};

use book_base::NoMemory;
use history_text::LogCall;
use indexmap::IndexSet;
use std::alloc::Global;

/// A key, and the places of its calls in the log.
#[derive(Drop)]
pub struct KeyPlaces<'a> {
    pub key: Option<&'a [u8]>,
    pub places: Vec<usize>,
}

/// The keys of a log in the order of their first calls, each with the places of its calls. A log
/// without calls has one, which is `None`.
pub fn key_places<'a>(alloc: Global, log: &[LogCall<'a>]) -> Result<Vec<KeyPlaces<'a>>, NoMemory>
    ensures { IfOk result (λ found. AreAllKeysOf log.now (map key_at found.items)) }
{
    let mut known: IndexSet<Option<&'a [u8]>> = IndexSet::new(alloc);
    let mut found: Vec<KeyPlaces<'a>> = Vec::new(alloc);
    for (place, call) in log.iter().enumerate() {
        let (at, is_new) = known.insert_full(call.key)?;
        if is_new {
            found.push(KeyPlaces {
                key: call.key,
                places: vec![in alloc; place]?,
            })?;
        } else {
            found[at].places.push(place)?;
        }
    }
    if log.is_empty() {
        found.push(KeyPlaces {
            key: None,
            places: Vec::new(alloc),
        })?;
    }
    Ok(found)
}
