use book_base::Book;

/// The verdict on a call whose record is published, by the book at its seen cut.
#[derive(Debug, Drop)]
pub enum CallVerdict {
    /// The reply is delivered: the book has a legal order, which the caller keeps. It explains this
    /// reply and all others in the book. The object may still be wrong where calls overlap.
    Delivered,
    /// The object is wrong: the book, which is this one, has no legal order. It is evidence that
    /// anyone can check again without the object, and every judgement at a cut that contains the
    /// seen cut is an error too.
    Illegal(Book),
}
