//! The texts of books: their reader in both versions, with the first fault of a text, and the
//! writers of books and of sketches in version 2.
#![tactic(auto)]

mod book;
mod calls;
mod ending;
mod entry;
pub mod fields;
mod laws;
mod reader;
mod sketch_text;
mod view;
mod writer_laws;

pub use book::write_book;
pub use calls::{read_calls, refusal};
pub use ending::read_end;
pub use entry::{take_operation, take_place};
pub use laws::{
    a_text_is_its_books_lines, first_faults_leave_texts, no_fault_of_a_text, one_book_per_text,
    one_first_fault,
};
pub use reader::{read_book, read_book1};
pub use sketch_text::events_text;
pub use text_fields::{Head, Lines, OpText, Words, number, read_head, read_head1};
pub use view::take_word;
pub use writer_laws::{
    no_book_text_begins_another, no_sketch_text_begins_another, written_books_are_one,
};
