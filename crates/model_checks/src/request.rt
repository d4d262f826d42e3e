ghost use Rattle.std.specs.Prelude.{◌≡◌};
ghost use Rattle.model_checks.specs.Checks.{IsSoundCheck};
ghost use Rattle.model_checks.specs.Requests.{Serves};

use crate::answer::ModelAnswer;
use crate::check::ModelCheck;
use book_base::NoMemory;
use std::alloc::Global;
use told_models::{PromiseFault, TellFault};

/// What a program asks of a check, by the numbers that it gives to states, operations and replies.
#[derive(Clone, Copy, Debug)]
pub enum ModelRequest {
    /// A caller's next call begins, with this operation.
    Begin(u32, u32),
    /// The call of a caller that has begun ends, with this reply.
    End(u32, u32),
    /// An operation is promised to change no state at which it has this reply.
    Leaves(u32, u32),
    /// A step of the model is told.
    Tell(ModelStep),
    /// The check goes on by at most so many steps.
    GoOn(u64),
}

/// A step of a model: at this state the operation leads to the state `next`, with this reply.
#[derive(Clone, Copy, Debug)]
pub struct ModelStep {
    pub state: u32,
    pub op: u32,
    pub next: u32,
    pub reply: u32,
}

/// What a check replies to a request.
#[derive(Clone, Copy, Debug)]
pub enum ModelReply {
    /// It did what it was asked.
    Done,
    /// There is no such caller, or its call can't begin or end.
    Unfit,
    /// Another step was told there.
    Contradicts,
    /// The step breaks a promise, or the promise a told step.
    LeavesNot,
    /// Memory was lacking.
    NoMemory,
    /// It went on, and says this.
    Said(ModelAnswer),
}

impl ModelCheck {
    /// Does what a program asks of the check.
    pub fn serve(&mut self, alloc: Global, request: ModelRequest) -> ModelReply
        // The check is sound.
        requires sound { IsSoundCheck self.old }
        // The check is still sound.
        ensures sound { IsSoundCheck self.new }
        // The reply is right.
        ensures served { Serves request self.old result self.new }
    {
        match request {
            ModelRequest::Begin(caller, op) => match self.begin(caller, op) {
                Ok(true) => ModelReply::Done,
                Ok(false) => ModelReply::Unfit,
                Err(NoMemory) => ModelReply::NoMemory,
            },
            ModelRequest::End(caller, reply) => match self.end(caller, reply) {
                Ok(true) => ModelReply::Done,
                Ok(false) => ModelReply::Unfit,
                Err(NoMemory) => ModelReply::NoMemory,
            },
            ModelRequest::Leaves(op, reply) => match self.leaves(op, reply) {
                Ok(()) => ModelReply::Done,
                Err(PromiseFault::LeavesNot(_)) => ModelReply::LeavesNot,
                Err(PromiseFault::NoMemory) => ModelReply::NoMemory,
            },
            ModelRequest::Tell(step) => {
                match self.tell(step.state, step.op, step.next, step.reply) {
                    Ok(()) => ModelReply::Done,
                    Err(TellFault::Contradicts(_)) => ModelReply::Contradicts,
                    Err(TellFault::LeavesNot) => ModelReply::LeavesNot,
                    Err(TellFault::NoMemory) => ModelReply::NoMemory,
                }
            }
            ModelRequest::GoOn(steps) => match self.go_on(alloc, steps) {
                Ok(said) => ModelReply::Said(said),
                Err(NoMemory) => ModelReply::NoMemory,
            },
        }
    }
}
