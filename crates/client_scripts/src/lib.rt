//! Scripts, what the callers of a concurrent object are to do: as values, as texts, from a number,
//! or drawn by a seed with weights for the operations of a kind.
#![tactic(auto)]

mod call_line;
mod calls;
mod draws;
mod generator;
mod laws;
mod operation;
mod random;
mod reader;
mod script;
mod tail;
mod tail_line;
mod text;
mod workload;
mod writer;

pub use draws::{draw, key_of};
pub use generator::make_script;
pub use laws::{
    a_text_is_its_scripts_lines, first_faults_leave_texts, no_fault_of_a_text,
    no_script_text_begins_another, one_first_fault, one_script_per_text, one_text_per_script,
};
pub use random::random_script;
pub use reader::{read_script, read_script1};
pub use script::Script;
pub use workload::{OperationChoice, Weights, Workload};
pub use writer::write_script;

/// How many phases a call has: it is announced, the object is asked, a view is taken, the record is
/// published, and the record is judged.
pub const PHASES: u64 = 5;
