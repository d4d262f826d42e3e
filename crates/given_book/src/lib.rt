//! The book that an input gives: its text in either version, or the witness after the report of a
//! run or after the verdict of monitors; which error line of the report was the first; and what is
//! written of the book: a smaller book without a legal order, why it has none, and its picture.
#![tactic(auto)]

mod error_line;
mod explained;
pub mod laws;
mod marking;
mod part;
mod picture;
mod read;
mod smaller;

pub use error_line::first_error;
pub use explained::{Explanation, explained_text};
pub use picture::picture_text;
pub use read::read_given;
pub use smaller::smaller_text;
