//! Certificates as texts: a book, and a list of its calls with their replies, which anyone can
//! judge by `order_check::check_order`; and verdicts on texts: whether the bytes are the text of a
//! book with a legal order, or of a certificate whose list is a legal order.
#![tactic(auto)]

mod book_lines;
mod book_verdict;
mod certificate;
mod certification;
mod laws;
mod order_verdict;
mod place_line;
mod places;
mod reader;
mod writer;

pub use book_lines::{is_end, read_book_lines};
pub use book_verdict::{BookVerdict, verify, verify_within};
pub use certificate::Certificate;
pub use certification::certify;
pub use laws::{
    a_text_is_its_certificates_lines, first_faults_leave_texts, no_certificate_text_begins_another,
    no_fault_of_a_text, one_certificate_per_text, one_first_fault, one_text_per_certificate,
};
pub use order_verdict::{OrderVerdict, order};
pub use place_line::take_call;
pub use reader::read_certificate;
pub use writer::write_certificate;
