//! Objects of one's own in Rattle: a book is judged by the object's own step, over states of its own
//! type.
#![tactic(auto)]

mod judging;
pub mod laws;
mod object;
mod telling;

pub use judging::judge_own;
pub use object::OwnObject;
