//! Callers of a table whose calls are judged by a model of one's own, which is told step by step: a
//! call is published, its caller gathers the book of what it has seen, and a search of the book asks
//! for the steps that it lacks.
#![tactic(auto)]

mod gathered_call;
mod gathering;
mod judging;
mod kept;
mod model_caller;
mod stage;

pub use gathered_call::GatheredCall;
pub use kept::KeptByModel;
pub use model_caller::ModelCaller;
pub use stage::ModelStage;
