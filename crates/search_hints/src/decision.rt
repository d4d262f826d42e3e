use book_base::Place;

/// What an object says of a whole book without a search of orders.
#[derive(Debug, Drop)]
pub enum Decision {
    /// A legal order.
    Order(Vec<Place>),
    /// The book has no legal order.
    NoOrder,
    /// The object says nothing of the book.
    Unsaid,
}
