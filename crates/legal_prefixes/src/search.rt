//! The search for the longest legal prefixes, by breadth.

ghost use Rattle.std.specs.Prelude.{◌≡◌, ◌<◌, length, IfOk};
ghost use Rattle.legal_prefixes.specs.declared.TheConstants.{LIST_ROOM};
ghost use Rattle.legal_prefixes.specs.Layers.{IsLayer};
ghost use Rattle.legal_prefixes.specs.Longest.{IsAnswer};

use crate::LIST_ROOM;
use crate::layer::{is_one_whole, next_layer};
use crate::prefix::LegalPrefix;
use book_base::{Book, Cut, MAX_CALLERS, MAX_CALLS, NoMemory, SeqObject, State};
use seq_objects::Kind;
use std::alloc::Global;

/// The most prefixes of one length that the search goes on from.
const MOST_OF_A_LENGTH: usize = 512;

/// The most prefixes that the search goes on from in all.
const MOST_OF_ALL: usize = 8192;

/// The answer of the search for the longest legal prefixes.
#[derive(Drop)]
pub enum LongestPrefixes {
    /// The book has no legal order, and these are its longest legal prefixes, one for each cut and
    /// list to which such prefixes lead.
    Longest(Vec<LegalPrefix>),
    /// The book has a legal order.
    Whole,
    /// There are more prefixes than the search looks at.
    Many,
}

/// The longest legal prefixes of a book that has no legal order.
///
/// All legal prefixes of one length are sought from those that are shorter by one place, one for each
/// cut and list to which they lead. The search gives up where there are too many of them.
pub fn longest_prefixes(alloc: Global, kind: Kind, book: &Book) -> Result<LongestPrefixes, NoMemory>
    // With `Longest` the book has no legal order, no legal prefix has more places than one of these,
    // no two of them lead to the same cut and list, and each legal prefix with as many places leads to
    // the cut and the list of one of them. With `Whole` the book has a legal order. With `Many`
    // nothing is said.
    ensures { IfOk result (IsAnswer kind book.now) }
{
    let mut here = State::with_room(alloc, LIST_ROOM)?;
    let mut layer = first_layer(alloc, kind, book, &mut here)?;
    let mut left = MOST_OF_ALL;
    for count in 0..MAX_CALLERS as u64 * MAX_CALLS {
        if is_one_whole(book, &layer) {
            return Ok(LongestPrefixes::Whole);
        }
        let next = next_layer(alloc, kind, book, &mut here, count, &layer)?;
        if next.is_empty() {
            return Ok(LongestPrefixes::Longest(layer));
        }
        if next.len() > left.min(MOST_OF_A_LENGTH) {
            return Ok(LongestPrefixes::Many);
        }
        left -= next.len();
        layer = next;
    }
    Ok(LongestPrefixes::Many)
}

// The layer of the prefix without places.
fn first_layer(
    alloc: Global,
    kind: Kind,
    book: &Book,
    here: &mut State,
) -> Result<Vec<LegalPrefix>, NoMemory>
    requires { here.old.room ≡ LIST_ROOM }
    ensures room { here.new.room ≡ LIST_ROOM }
    ensures some { IfOk result (λ layer. 0 < length layer.items) }
    ensures layer { IfOk result (λ layer. IsLayer kind book.now 0 layer.items) }
{
    kind.reset(here);
    let mut layer = Vec::new(alloc);
    layer.push(LegalPrefix {
        places: Vec::new(alloc),
        cut: Cut::zero(book.callers()),
        words: Vec::from_slice(alloc, here.words())?,
    })?;
    Ok(layer)
}
