//! The texts of reports: their reader, with the first fault of a text, and their writer, in version
//! 2.
#![tactic(auto)]

mod draft;
mod fields;
mod laws;
mod line;
mod lines;
mod reader;
mod writer;

pub use laws::{
    a_text_is_its_reports_lines, first_faults_leave_texts, no_fault_of_a_text,
    no_report_text_begins_another, one_first_fault, one_report_per_text, one_text_per_report,
};
pub use reader::read_report;
pub use reports::{Own, Report};
pub use writer::report_text;
