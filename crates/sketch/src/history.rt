ghost use Rattle.std.specs.Prelude.{IfOk};
ghost use Rattle.sketch.specs.Sketch.{IsSketch};

use crate::drawn::Drawn;
use crate::event::Event;
use book_base::{Book, NoMemory};
use std::alloc::Global;

/// The sketch of a book: the one history of invocations and returns that its views determine
/// (Castañeda and Rodríguez 2023).
///
/// The distinct views are taken in rising order. For each, the calls that it holds and no smaller
/// view holds are invoked, by caller and then by number, and then the calls whose view it is
/// return, by caller. After the last view the calls that no view holds are invoked, by caller and
/// then by number.
pub fn sketch(alloc: Global, book: &Book) -> Result<Vec<Event>, NoMemory>
    // The answered events are the book's one sketch.
    ensures { IfOk result (λ events. IsSketch book.now events.items) }
{
    let mut events = Vec::new(alloc);
    let mut drawn = Drawn::nothing(book.callers());
    while let Some(event) = drawn.next(book) {
        events.push(event)?;
        drawn.draw(book, event);
    }
    Ok(events)
}
