use book_base::{Book, Cut};

/// A book that a caller has gathered, with the cut at which it has gathered it.
#[derive(Debug, Drop)]
pub struct Gathered {
    pub book: Book,
    pub cut: Cut,
}
