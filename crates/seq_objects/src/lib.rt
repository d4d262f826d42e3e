//! The eight sequential objects, and the words of operations and replies with their texts.
#![tactic(auto)]

mod cas_register;
mod counter;
mod digits;
mod entry;
mod int_set;
mod items;
mod kind;
mod laws;
mod map;
mod pqueue;
mod queue;
mod register;
mod reply;
mod stack;
mod whole;

pub use cas_register::{CasRegister, CasRegisterOperation};
pub use counter::{Counter, CounterOperation};
pub use digits::{number, put_number};
pub use int_set::{IntSet, IntSetOperation};
pub use kind::Kind;
pub use laws::{
    maps_keep_what_is_put, one_name_per_kind, one_text_per_operation, one_text_per_reply,
};
pub use map::{Map, MapOperation};
pub use pqueue::{Pqueue, PqueueOperation};
pub use queue::{Queue, QueueOperation};
pub use register::{Register, RegisterOperation};
pub use reply::{
    DONE, NO, NONE, YES, is_value, put_reply, reply_from_word, shown_value, wrapping_value_reply,
};
pub use stack::{Stack, StackOperation};
