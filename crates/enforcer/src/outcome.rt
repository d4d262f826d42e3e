use book_base::{Book, Cut, Place};
use row_table::Caller;
use world_core::Outside;

/// What became of a call that was judged, with its record, a reply and a view, and its seen cut.
#[derive(Debug, Drop)]
pub enum Outcome {
    /// The reply is delivered: the book at the seen cut has a legal order, which explains this
    /// reply and all others in the book. The object may still be wrong where calls overlap.
    Delivered {
        reply: u64,
        view: Cut,
        seen: Cut,
        order: Vec<Place>,
    },
    /// The object is wrong: the book at the seen cut has no legal order. The book is evidence that
    /// anyone can check again without the object, and every judgement at a cut that contains the
    /// seen cut is an error too.
    Illegal {
        reply: u64,
        view: Cut,
        seen: Cut,
        book: Book,
    },
}

/// A call that wasn't judged, since memory was refused, which says nothing about the object.
///
/// Its caller is halted, and its record stays published, so that the books which other callers
/// judge may hold it. The reply and the view are those of the record, and the reply is unchecked.
pub struct Unjudged<P = Outside> {
    pub caller: Caller<P>,
    pub reply: u64,
    pub view: Cut,
    pub seen: Cut,
}
