//! Atomic words that callers share, with one history of all accesses to them, and a log of
//! operations on such words, to which callers on many threads append without locks.
#![tactic(auto)]

mod entry;
pub mod laws;
mod layout;
mod log_plays;
mod plays;
mod seat;
mod seated;
mod shared_log;
mod shared_words;
mod steps;
mod usage;
mod word_seat;
mod words_pass;

pub use entry::Entry;
pub use seat::LogSeat;
pub use seated::Seated;
pub use shared_log::SharedLog;
pub use shared_words::SharedWords;
pub use usage::Usage;
pub use word_seat::WordSeat;
pub use words_pass::WordsPass;
