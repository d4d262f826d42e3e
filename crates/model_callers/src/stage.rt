use crate::gathered_call::GatheredCall;
use drv_wrapper::Announced;
use row_table::Caller;
use told_models::ToldSearch;

/// Where a caller is: between two calls, in a call, or halted after one.
#[derive(Drop)]
pub enum ModelStage {
    /// The caller is between two calls.
    Idle(Caller),
    /// A call is announced, and its reply isn't handed in yet.
    Announced(Announced),
    /// A call is published, and its judgement hasn't ended. The search is none at the beginning, and
    /// after want of memory.
    Judging(GatheredCall, Option<ToldSearch>),
    /// The last call was an error, and the caller is halted: the book has no legal order.
    Wrong(GatheredCall),
    /// The last call is published, nobody judges it for want of memory, and the caller is halted.
    Unjudged(Caller),
}
