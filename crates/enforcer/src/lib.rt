//! The enforcer of Castañeda and Rodríguez (2023): the record of a call is published, a cut of the
//! published records is seen, and the book at this cut is judged.
#![tactic(auto)]

mod call_verdict;
mod calling;
mod enforcing;
mod guided;
mod judging;
pub mod laws;
mod outcome;
mod published_call;
mod publishing;
mod seeing;
mod seen_call;

pub use call_verdict::CallVerdict;
pub use calling::call_and_see;
pub use enforcing::enforce;
pub use guided::judge;
pub use judging::{gather, judge_seen, standing_in};
pub use outcome::{Outcome, Unjudged};
pub use published_call::Published;
pub use publishing::publish;
pub use row_gather::{Gathered, grow_at};
pub use seeing::seen;
pub use seen_call::Seen;
