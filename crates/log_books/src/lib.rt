//! Books of a log of another tool, one for each key: which operations are which, the numbers of the
//! values, and what is written of a key.
#![tactic(auto)]

mod importing;
mod key_calls;
mod key_part;
mod keys;
mod names;
mod operation;
mod options;
mod refused;
mod words;

pub use importing::{Imported, import, import_by};
pub use operation::{Operation, Says};
pub use options::{NamedOperation, Options};
pub use refused::log_refusal;
pub use words::options_of;
