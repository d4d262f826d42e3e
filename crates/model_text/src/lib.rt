//! Books of models as texts, with the steps that were told of the model: evidence that is judged
//! without the model itself.
#![tactic(auto)]

mod book_lines;
mod laws;
mod lines;
mod model_text;
mod model_words;
mod reader;
mod steps;
mod table;
mod told_line;
mod writer;

pub use laws::{
    a_text_is_its_lines, first_faults_leave_texts, no_fault_of_a_text, no_text_begins_another,
    one_first_fault, one_model_per_text, one_text_per_model,
};
pub use lines::lines_of;
pub use model_text::ModelText;
pub use model_words::{ModelWords, put_model_operation};
pub use reader::read_model;
pub use table::table_of;
pub use told_line::{Subject, ToldLine};
pub use writer::{write_book, write_model};
