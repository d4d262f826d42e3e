//! Set-linearizability (Neiger 1994, "Set-linearizability"): objects that serve several calls at
//! once, the search for a legal set order of a book, and the texts of set books, which are books of
//! joins.
#![tactic(auto)]

mod join_words;
mod joins;
mod laws;
mod place_set;
mod reader;
mod search;
mod set_object;
mod single;
mod text_laws;
mod verdict;
mod walk;

pub use join_words::JoinWords;
pub use joins::Joins;
pub use laws::single_calls_are_sets;
pub use place_set::PlaceSet;
pub use reader::read_setbook;
pub use set_object::SetObject;
pub use single::Single;
pub use text_laws::{
    a_text_is_its_set_books_lines, first_faults_leave_texts, no_fault_of_a_text,
    no_set_book_text_begins_another, one_first_fault, one_set_book_per_text, one_text_per_set_book,
};
pub use verdict::{SetVerdict, check_sets};
