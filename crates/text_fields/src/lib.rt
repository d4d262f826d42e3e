//! The fields of texts: lines, words, numbers, counts, cuts and heads, each read exactly and
//! without an allocation; and what is written of a text that is refused.
#![tactic(auto)]

mod counts;
mod cut_at;
mod fault_name;
mod head;
mod lines;
mod op_text;
mod pairs;
mod refused;
mod version;
mod words;

pub use counts::{next_number, read_counts};
pub use fault_name::name_of;
pub use head::{Head, are_words, callers_of, calls_of, read_head, read_head_of, read_head1};
pub use lines::Lines;
pub use op_text::{KindWords, OpText};
pub use pairs::read_pairs;
pub use refused::refusal;
pub use seq_objects::number;
pub use version::Version;
pub use words::Words;

/// The greatest number of callers in a text of version 2.
pub const TEXT_CALLERS: u64 = 16;

/// The greatest number of calls of a caller in a text of version 2.
pub const TEXT_CALLS: u64 = 256;

/// The greatest number of callers in a text of version 1.
pub const FIRST_TEXT_CALLERS: u64 = 8;

/// The greatest number of calls of a caller in a text of version 1.
pub const FIRST_TEXT_CALLS: u64 = 64;
