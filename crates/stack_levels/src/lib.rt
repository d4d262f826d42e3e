//! Decides the books of stacks by a search for pairs of a level and a cut, which keeps no lists of
//! the stack. An order that it finds is checked before it is delivered. A book is said to have no
//! legal order only where counts of puts and takes show it, or each call that has to be tried at a
//! pair that was found leads only to pairs that were found.
#![tactic(auto)]

mod closure;
mod decide;
mod lasting;
pub mod laws;
mod order;
mod runs;
mod search;
mod stack_book;
mod table;

pub use decide::decide_stack;
