use book_base::Place;

/// A place that may come next in an order, and its turn: of several choices the one with the least
/// turn is tried first.
#[derive(Clone, Copy, Drop)]
pub struct Choice {
    pub turn: u64,
    pub place: Place,
}
