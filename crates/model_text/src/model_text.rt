use crate::told_line::ToldLine;
use book_base::Book;

/// A book of a model's calls, and what was told of the model.
#[derive(Debug, Drop)]
pub struct ModelText {
    /// The book.
    pub book: Book,
    /// What was told: promises and then steps, each with pairs that rise.
    pub told: Vec<ToldLine>,
}
