//! What a search for a legal order needn't try, of objects whose calls put in and show values, and
//! of stacks.
#![tactic(auto)]

mod again;
mod forced;
mod holds_last;
mod kept;
mod last_first;
mod least_first;
mod outside;
mod sight;
mod takes;
mod top;
mod values;
mod words;

pub use holds_last::narrow_holds_last;
pub use last_first::{narrow_by_top, narrow_last_first};
pub use least_first::narrow_least_first;
pub use outside::{is_read, is_written};
pub use sight::{is_put_once, sight_of_values};
pub use takes::next_least_take;
pub use top::Top;
pub use values::{value_put, value_taken};
