use book_base::{Cut, Place};

/// A mark in an order: how many places are before it, the cut and the words of the object's list
/// after those places, and how many records of each caller the book had when the mark was left.
#[derive(Debug, Drop)]
pub struct OrderMark {
    pub len: usize,
    pub cut: Cut,
    pub words: Vec<u64>,
    pub answered: Cut,
}

/// The last legal order that was found, with some marks in it. The next search begins after the
/// last mark that still stands: the places before it still follow one another in the grown book.
#[derive(Debug, Drop)]
pub struct KeptOrder {
    pub order: Vec<Place>,
    pub marks: Vec<OrderMark>,
}
