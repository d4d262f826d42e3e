use book_base::{Cut, Place};

/// A prefix of an order: its places, and the cut and the object's list that they lead to.
#[derive(Drop)]
pub struct LegalPrefix {
    pub places: Vec<Place>,
    pub cut: Cut,
    pub words: Vec<u64>,
}
