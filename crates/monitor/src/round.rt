use book_base::Cut;

/// What a round found, with the cut that its scan gave.
#[derive(Debug, Clone, Copy, Drop)]
pub enum Round {
    /// The book at the cut has a legal order.
    Legal(Cut),
    /// The book at the cut has no legal order, and is the monitor's own witness.
    Illegal(Cut),
}
