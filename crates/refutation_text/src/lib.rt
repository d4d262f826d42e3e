//! Refutations as texts: a book, steps that make it smaller, and an ending by which the part that
//! the steps leave has no legal order; and the judging of such texts, without a search.
#![tactic(auto)]

mod body;
mod fault;
mod fields;
mod laws;
mod level_lines;
mod line;
mod part_steps;
mod reader;
mod refutation;
mod verdict;

pub use fault::RefutationFault;
pub use fields::are_values;
pub use laws::{
    no_fault_of_a_refutation, one_first_refutation_fault, refuted_books_have_no_order,
    steps_leave_a_legal_order,
};
pub use part_steps::{StepFault, part_of};
pub use reader::read_refutation;
pub use refutation::{Ending, Refutation, Step};
pub use verdict::{RefutationVerdict, refute};

/// How many callers the pairs of a step may name: those of a text of version 2.
pub(crate) const STEP_CALLERS: u32 = 16;
