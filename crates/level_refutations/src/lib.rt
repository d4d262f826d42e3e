//! A reason why a stack's book has no legal order, which can be checked without a search: a closed
//! table of levels.
#![tactic(auto)]

mod above;
mod check;
mod cuts;
mod entry;
mod fault;
mod find;
mod found;
pub mod laws;
mod levels;
mod node;
mod nodes;
mod table;

pub use check::check_levels;
pub use entry::LevelEntry;
pub use fault::LevelFault;
pub use find::find_levels;
