use book_base::{Book, Cut};
use drv_wrapper::Announced;
use row_table::Caller;

/// Where the caller of a handle is: between two calls, in an announced call, or halted after one.
#[derive(Drop)]
pub enum HandleStage {
    /// The caller is between two calls.
    Idle(Caller),
    /// A call is announced, and its reply isn't handed in yet.
    Announced(Announced),
    /// The last call was an error, and the caller is halted.
    Wrong(Wrong),
    /// The last call was left unjudged for want of memory, and the caller is halted.
    Unjudged(Caller),
}

/// A call that was an error: the published records at its seen cut, its own among them, have no
/// legal order.
#[derive(Drop)]
pub struct Wrong {
    pub caller: Caller,
    pub reply: u64,
    pub view: Cut,
    pub seen: Cut,
    pub book: Book,
}
