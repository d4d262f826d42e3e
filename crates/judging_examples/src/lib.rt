//! Small objects, books, tables and runs, written out, on which the definitions and laws of judging
//! are seen to hold and to fail.
#![tactic(auto)]

pub mod bags;
pub mod books;
pub mod evidence;
pub mod joins;
pub mod keyed_calls;
pub mod piles;
pub mod rules;
pub mod runs;
pub mod smaller_books;
pub mod standings;
pub mod steps;
