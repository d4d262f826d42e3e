//! A book judged by sets of one call each, for an object that serves one call at a time. A legal
//! order of such sets is a legal order, so the verdict is that of a search for one.

use anyhow::{Result, anyhow};
use book_text::read_book;
use set_order::{SetVerdict, Single, check_sets};
use std::alloc::Global;

/// The greatest number of callers of a book that is judged by sets: the search by sets tries all
/// subsets of the calls that may come next.
const MOST_CALLERS: u32 = 3;

/// Whether the verdict by sets of one call each on the book with this text is the expected one. A
/// book of more than `MOST_CALLERS` callers isn't tried, and the answer is true.
pub fn agrees(alloc: Global, text: &[u8], is_legal: bool) -> Result<bool> {
    let (kind, book) = read_book(alloc, text).map_err(|_| anyhow!("the book can't be read"))?;
    if book.callers() > MOST_CALLERS {
        return Ok(true);
    }
    match check_sets(alloc, &Single { object: kind }, &book).map_err(|_| anyhow!(
        "no memory for a check by sets"
    ))? {
        SetVerdict::Legal(_) => Ok(is_legal),
        SetVerdict::Illegal => Ok(!is_legal),
    }
}
