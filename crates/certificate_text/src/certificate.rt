use book_base::{Book, Place};
use seq_objects::Kind;

/// A book, and a list of calls with the replies that they are said to get in this order. The list
/// may name calls that the book doesn't have: `order_check::check_order` says whether it is a legal
/// order of the book.
#[derive(Debug, Drop)]
pub struct Certificate {
    /// The kind of the book's object.
    pub kind: Kind,
    /// The book.
    pub book: Book,
    /// The places, from the first.
    pub order: Vec<Place>,
}
