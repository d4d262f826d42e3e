//! Logs of other tools, read line by line: EDN maps as Jepsen writes them, JSON lines, and CSV with
//! a header.
#![tactic(auto)]

mod call;
mod cell;
mod clock;
mod entry;
mod event;
mod fault;
mod fields;
mod format;
mod header;
mod item;
mod layout;
mod line_words;
mod lines;
mod log;
mod log_entries;
mod moment;
mod pairing;
mod process_events;
mod scan;

pub use call::{LogAnswer, LogCall};
pub use clock::Clock;
pub use fault::{LogError, LogFault, LogWhat};
pub use format::Format;
pub use item::{in_brackets, is_nothing, items, plain};
pub use layout::{Layout, NamedRole, Role};
pub use log::read_log;
