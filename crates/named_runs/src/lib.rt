//! Runs, monitored runs and replays of a script over the objects that have a name, or over an
//! object under test, and what is written of them: the report, its counts, or a certificate, which
//! is the book of what was delivered with a legal order of it.
#![tactic(auto)]

mod behaviour;
mod certificate;
mod certificate_laws;
mod delivered;
mod form;
mod fresh;
mod inside_run;
mod laws;
mod named;
mod named_machine;
mod named_object;
mod onlooker;
mod report_output;
mod run;

pub use behaviour::{monitor_behaviour, replay_behaviour, run_behaviour};
pub use certificate::report_certificate;
pub use certificate_laws::{
    certificates_tell_of_what_was_delivered, lawful_reports_have_certificates,
};
pub use delivered::{delivered_book, delivered_cut};
pub use form::Form;
pub use fresh::{core_fresh, monitor_fresh, replay_fresh, run_fresh};
pub use laws::{a_report_and_its_counts_have_one_text, certificates_are_legal_and_tell_one_book};
pub use onlooker::{Onlooker, Unwatched};
pub use report_output::write_report;
pub use run::{core_and_write, replay_and_write, run_and_write};
