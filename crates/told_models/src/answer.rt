use book_base::{OpWord, Place};

/// What is said of a book at the steps that were told so far.
#[derive(Debug, PartialEq, Eq, Drop)]
pub enum Answer {
    /// This order is legal for each object that agrees with what was told.
    Legal(Vec<Place>),
    /// No object that agrees with what was told has a legal order of the book.
    Illegal,
    /// What this operation does at this state is to be told.
    Ask(u64, OpWord),
}
