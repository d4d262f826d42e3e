//! Calls, cuts, books, states and the trait of sequential objects, on which most crates build.
#![tactic(auto)]

mod book;
mod call;
mod cut;
mod fault;
mod grows_by_one;
pub mod laws;
mod op_word;
mod seq_object;
mod state;

pub use book::Book;
pub use call::{Call, Place, Record};
pub use cut::Cut;
pub use fault::{BookFault, NoMemory, ReadFault, TextFault, What};
pub use grows_by_one::GrowsByOne;
pub use op_word::{OpWord, high, join, low};
pub use seq_object::SeqObject;
pub use state::State;

/// The greatest number of callers of a book or of a table.
pub const MAX_CALLERS: usize = 16;

/// The greatest number of calls that one caller makes.
pub const MAX_CALLS: u64 = 256;

/// The greatest capacity of a [`State`], in words.
pub const MAX_ROOM: u64 = 8192;

/// The reply word `bad`, which answers an operation that the object doesn't know.
pub const BAD: u64 = 17179869184;
