ghost use Rattle.std.specs.Prelude.{◌≡◌, ◌↔◌, [], IsTrue, IsSome, IfSome, IfNone, IfOk, IfErr};
ghost use Rattle.std.specs.Arc.{arc_value};
ghost use Rattle.row_table.specs.Callers.{IsCallerOf, IsFree};
ghost use Rattle.model_checks.specs.Words.{operation_word};
ghost use Rattle.announced_calls.specs.Outside.{every_reply};

use crate::gathering::publish_gathered;
use crate::judging::judge_on;
use crate::kept::KeptByModel;
use crate::stage::ModelStage;
use announced_calls::announce_alone;
use book_base::NoMemory;
use model_checks::{ModelReply, ModelRequest, operation_word};
use model_text::write_book;
use row_table::{Caller, Rows};
use seq_objects::wrapping_value_reply;
use std::alloc::Global;
use std::sync::Arc;
use told_models::{PromiseFault, TellFault, ToldTable, Transition};

/// One caller of a table, whose calls are judged by a model that is told step by step.
///
/// It makes one call at a time: [`announce`](ModelCaller::announce), then the object's own call,
/// wherever that is made, then with its reply [`answered`](ModelCaller::answered), which publishes
/// the call and gathers the book of what the caller has seen since. The judgement of this book then
/// goes on by [`serve`](ModelCaller::serve), which asks for steps of the model, is told them, and
/// ends with the reply delivered or as an error. What was told stays for later calls.
///
/// Operations, replies and states are numbers, from the caller's side. Rows and books have those of
/// operations and replies, so that all callers of a table are to give the same number to the same
/// thing; those of states are each caller's own.
#[derive(Drop)]
pub struct ModelCaller {
    pub kept: KeptByModel,
    pub stage: ModelStage,
}

impl ModelCaller {
    ghost use Rattle.model_callers.specs.Callers.{rows_of, table_of, IsSoundCaller, IsOfSameModel, MayAnnounce, HasAnnounced, IsInError, HasBegun, IsToBeJudged, IsHalted};
    ghost use Rattle.model_callers.specs.Told.{IsTold, MayServe, Serves, IsWitnessOf};

    /// The caller of the table `rows`, which is between two calls, with nothing told of the model
    /// but that its initial state has the number 0. No memory is taken.
    pub fn new(alloc: Global, rows: Arc<Rows, Global>, caller: Caller) -> ModelCaller
        // The caller belongs to `rows`.
        requires caller { IsCallerOf every_reply (arc_value rows) caller }
        // The caller is between two calls.
        requires free { IsFree caller }
        // The caller is sound: its parts fit one another.
        ensures sound { IsSoundCaller result }
        // It has these rows.
        ensures rows { rows_of result ≡ arc_value rows }
        // Nothing was told, but that the initial state has the number 0.
        ensures table { table_of result ≡ record { init = 0; steps = []; promises = [] } }
        // It is `caller`, between two calls.
        ensures idle { result.stage ≡ ModelStage.Idle caller }
    {
        ModelCaller {
            kept: KeptByModel {
                rows,
                table: ToldTable::new(alloc, 0),
                gathered: None,
            },
            stage: ModelStage::Idle(caller),
        }
    }

    /// Announces a call with the operation of this number, where the caller is between two calls and
    /// has a call left. The answer is whether a call was announced; where none was, the caller is as
    /// it was.
    pub fn announce(self, op: u32) -> (ModelCaller, bool)
        // The caller is sound: its parts fit one another.
        requires sound { IsSoundCaller self }
        // The caller that comes back is sound.
        ensures sound { IsSoundCaller result.0 }
        // It is of this caller's table, to which the same was told.
        ensures same { IsOfSameModel self result.0 }
        // The answer is true exactly where the caller is between two calls and has a call left.
        ensures when { IsTrue result.1 ↔ MayAnnounce self }
        // With true the caller has announced a call with this operation.
        ensures begun { IsTrue result.1 → HasBegun op self result.0 }
        // With false the caller is as it was.
        ensures unchanged { ¬ IsTrue result.1 → result.0 ≡ self }
    {
        let ModelCaller { kept, stage } = self;
        match stage {
            ModelStage::Idle(caller) => {
                if caller.left() == 0 {
                    let stage = ModelStage::Idle(caller);
                    return (ModelCaller { kept, stage }, false);
                }
                let call = announce_alone(&kept.rows, caller, operation_word(op));
                let stage = ModelStage::Announced(call);
                (ModelCaller { kept, stage }, true)
            }
            stage => (ModelCaller { kept, stage }, false),
        }
    }

    /// Hands in the reply of this number to the call that is announced, publishes the call, and
    /// gathers the book of what its caller has seen since, which is to be judged. Where no call is
    /// announced there is no answer, and the caller is as it was. After want of memory the call is
    /// published, nobody judges it, and its caller makes no further call.
    pub fn answered(self, alloc: Global, reply: u32) -> (ModelCaller, Option<Result<(), NoMemory>>)
        // The caller is sound: its parts fit one another.
        requires sound { IsSoundCaller self }
        // The caller that comes back is sound.
        ensures sound { IsSoundCaller result.0 }
        // It is of this caller's table, to which the same was told.
        ensures same { IsOfSameModel self result.0 }
        // There is an answer exactly where the caller has announced a call whose reply isn't handed
        // in yet.
        ensures when { IsSome result.1 ↔ HasAnnounced self }
        // With `Ok` the call is published with this reply, and its book is gathered.
        ensures judging { IfSome result.1 (λ answer. IfOk answer
            (λ _. IsToBeJudged reply self result.0)) }
        // With want of memory the call is published with this reply, and its caller is halted.
        ensures halted { IfSome result.1 (λ answer. IfErr answer
            (λ _. IsHalted reply self result.0)) }
        // Without an answer the caller is as it was.
        ensures unchanged { IfNone result.1 (result.0 ≡ self) }
    {
        let ModelCaller { mut kept, stage } = self;
        match stage {
            ModelStage::Announced(call) => {
                let before = kept.gathered.take();
                let reply = wrapping_value_reply(u64::from(reply));
                match publish_gathered(alloc, &kept.rows, call, reply, before) {
                    Ok(call) => {
                        let stage = ModelStage::Judging(call, None);
                        (ModelCaller { kept, stage }, Some(Ok(())))
                    }
                    Err(caller) => {
                        let stage = ModelStage::Unjudged(caller);
                        (ModelCaller { kept, stage }, Some(Err(NoMemory)))
                    }
                }
            }
            stage => (ModelCaller { kept, stage }, None),
        }
    }

    /// Does what a program asks: takes a promise or a step of the model, or goes on with the
    /// judgement of the call that is published, where one hasn't ended. Without a reply the caller
    /// is as it was.
    pub fn serve(self, alloc: Global, request: ModelRequest) -> (ModelCaller, Option<ModelReply>)
        // The caller is sound: its parts fit one another.
        requires sound { IsSoundCaller self }
        // The caller that comes back is sound.
        ensures sound { IsSoundCaller result.0 }
        // It is of this caller's table.
        ensures same { rows_of result.0 ≡ rows_of self }
        // There is a reply exactly where the request is served: promises and steps at any time, and
        // a judgement goes on where one hasn't ended.
        ensures when { IsSome result.1 ↔ MayServe request self }
        // A reply is right.
        ensures served { IfSome result.1 (λ reply. Serves request self reply result.0) }
        // Without a reply the caller is as it was.
        ensures unchanged { IfNone result.1 (result.0 ≡ self) }
    {
        match request {
            ModelRequest::Leaves(op, reply) => {
                let mut caller = self;
                let said = caller.leaves(op, reply);
                (caller, Some(said))
            }
            ModelRequest::Tell(step) => {
                let mut caller = self;
                let said = caller.tell(step.state, step.op, step.next, step.reply);
                (caller, Some(said))
            }
            ModelRequest::GoOn(steps) => self.go_on(alloc, steps),
            ModelRequest::Begin(_, _) | ModelRequest::End(_, _) => (self, None),
        }
    }

    // Goes on with the judgement of the published call, where one hasn't ended.
    fn go_on(self, alloc: Global, steps: u64) -> (ModelCaller, Option<ModelReply>)
        requires sound { IsSoundCaller self }
        ensures sound { IsSoundCaller result.0 }
        ensures same { rows_of result.0 ≡ rows_of self }
        ensures when { IsSome result.1 ↔ MayServe (ModelRequest.GoOn steps) self }
        ensures served { IfSome result.1
            (λ reply. Serves (ModelRequest.GoOn steps) self reply result.0) }
        ensures unchanged { IfNone result.1 (result.0 ≡ self) }
    {
        let ModelCaller { mut kept, stage } = self;
        match stage {
            ModelStage::Judging(call, search) => {
                let (stage, reply) = judge_on(alloc, &mut kept, call, search, steps);
                (ModelCaller { kept, stage }, Some(reply))
            }
            stage => (ModelCaller { kept, stage }, None),
        }
    }

    // Promises that the operation of this number changes no state at which it has the reply of this
    // number.
    fn leaves(&mut self, op: u32, reply: u32) -> ModelReply
        requires sound { IsSoundCaller self.old }
        ensures sound { IsSoundCaller self.new }
        ensures same { rows_of self.new ≡ rows_of self.old }
        ensures served { Serves (ModelRequest.Leaves op reply) self.old result self.new }
    {
        let reply = wrapping_value_reply(u64::from(reply));
        match self.kept.table.promise(operation_word(op), reply) {
            Ok(()) => ModelReply::Done,
            Err(PromiseFault::LeavesNot(_)) => ModelReply::LeavesNot,
            Err(PromiseFault::NoMemory) => ModelReply::NoMemory,
        }
    }

    // Tells a step of the model, by its numbers.
    fn tell(&mut self, state: u32, op: u32, next: u32, reply: u32) -> ModelReply
        requires sound { IsSoundCaller self.old }
        ensures sound { IsSoundCaller self.new }
        ensures same { rows_of self.new ≡ rows_of self.old }
        ensures served { IsTold (record { state = state; op = op; next = next; reply = reply })
            self.old result self.new }
    {
        let transition = Transition {
            next: u64::from(next),
            reply: wrapping_value_reply(u64::from(reply)),
        };
        match self
            .kept
            .table
            .tell(u64::from(state), operation_word(op), transition)
        {
            Ok(()) => ModelReply::Done,
            Err(TellFault::Contradicts(_)) => ModelReply::Contradicts,
            Err(TellFault::LeavesNot) => ModelReply::LeavesNot,
            Err(TellFault::NoMemory) => ModelReply::NoMemory,
        }
    }

    /// Where the last call was an error, the text of its book, which has no legal order for any
    /// object that agrees with what was told.
    pub fn witness(&self, alloc: Global) -> Result<Option<Vec<u8>>, NoMemory>
        // The caller is sound: its parts fit one another.
        requires sound { IsSoundCaller self.now }
        // There is a text exactly where the caller's last call was an error.
        ensures when { IfOk result (λ found. IsSome found ↔ IsInError self.now) }
        // The text is that of the book of the error, which has no legal order.
        ensures text { IfOk result
            (λ found. IfSome found (λ text. IsWitnessOf self.now text.items)) }
    {
        match &self.stage {
            ModelStage::Wrong(call) => Ok(Some(write_book(alloc, &call.gathered.book)?)),
            _ => Ok(None),
        }
    }
}
