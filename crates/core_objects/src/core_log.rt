ghost use Rattle.std.specs.Prelude.{◌≡◌, ℕ, ◌+◌, ◌<◌, ◌≤◌, List, [], ◌∷◌, ◌++◌, length, take, IfOk};
ghost use Rattle.book_base.specs.declared.TheConstants.{MAX_CALLERS, MAX_CALLS};
ghost use Rattle.book_base.specs.Reaching.{IsCapacityFor};
ghost use Rattle.world_core.specs.World.{Step, IsRun};
ghost use Rattle.world_core.specs.History.{IsLinearizable, history_of};
ghost use Rattle.world_objects.specs.LogProgram.{list_of};
ghost use Rattle.core_objects.specs.CoreObjects.{shape_with, ArePassesFor};
ghost use Rattle.core_objects.specs.LogPasses.{FitsLog, object_of};

use crate::core_object::CoreObject;
use crate::log_pass::{CorePass, log_passes_for};
use crate::log_steps::{load_operations, place_ticket, store_operation};
use book_base::{MAX_CALLERS, MAX_CALLS, NoMemory, OpWord, SeqObject, State};
use drv_wrapper::Announced;
use row_table::Rows;
use std::alloc::Global;
use world_core::{InWorld, Program};

/// The program of the log of a sequential object: a call stores its operation, places its ticket in
/// the log, loads the operations of the tickets before its own one that its caller doesn't know
/// yet, and gets the reply that the sequential object gives after these operations.
#[derive(Clone, Copy)]
pub struct LogProgram<S> {
    /// The sequential object.
    pub object: S,
}

impl<S: SeqObject + Copy> Program for LogProgram<S> {
    ghost use Rattle.world_objects.specs.LogProgram.{log_program};

    ghost meaning = { λ program n cap. log_program (S.spec program.object) n cap };

    fn object_words(&self, n: u32, cap: u64) -> u64 {
        3 * (u64::from(n) * cap)
    }
}

impl<S: SeqObject + Copy> InWorld for LogProgram<S> {}

/// The object history of every run of the log of a sequential object is linearizable for this
/// sequential object, whatever the number of callers and the cap.
pub fn runs_of_log<S: SeqObject + Copy>(_program: &LogProgram<S>)
    ensures { (n cap : ℕ) (steps : List Step)
        → IsRun (shape_with (⟦<LogProgram<S> as Program>⟧.meaning _program.now) n cap) steps
        → IsLinearizable (S.spec _program.now.object)
        (history_of (shape_with (⟦<LogProgram<S> as Program>⟧.meaning _program.now) n cap) steps) }
{}

/// The log of a sequential object, as an object inside the world.
#[derive(Drop)]
pub struct CoreLog<S> {
    object: S,
}

impl<S: SeqObject + Copy> CoreLog<S> {
    /// Opens the log of a sequential object, with a pass for each of `n` callers with `cap` calls
    /// each, in order. All the memory that their calls need is taken here.
    pub fn open(
        alloc: Global,
        object: S,
        n: u32,
        cap: u64,
    ) -> Result<(CoreLog<S>, Vec<CorePass>), NoMemory>
        // There is at least one caller.
        requires some_callers { 1 ≤ n }
        // There are at most `MAX_CALLERS` callers.
        requires few_callers { n ≤ MAX_CALLERS }
        // Each caller has at least one call.
        requires some_calls { 1 ≤ cap }
        // Each caller has at most `MAX_CALLS` calls.
        requires few_calls { cap ≤ MAX_CALLS }
        // The sequential object of the log is `object`.
        ensures object { IfOk result (λ r. object_of r.0 ≡ object) }
        // There is one pass for each caller, in order, which fits the caller, the number of callers
        // and the cap, and knows no entry of the log.
        ensures passes { IfOk result
            (λ r. ArePassesFor (FitsLog (S.spec (object_of r.0))) n cap r.1.items) }
    {
        let passes = log_passes_for(alloc, &object, n, cap)?;
        Ok((CoreLog { object }, passes))
    }

    // The reply to the operation `op` after the operations of `log`, where the state is the list
    // after the first `made` operations of the log. Applies only the operations of the log after
    // these, and then `op`.
    fn reply_after(&self, state: &mut State, log: &[OpWord], made: usize, op: OpWord) -> u64
        requires made { made ≤ length log.now }
        requires state { state.old.words ≡ list_of (S.spec self.now.object).next
            (S.spec self.now.object).init (take made log.now) }
        requires room { IsCapacityFor (S.spec self.now.object) (length log.now + 1)
            state.old.room }
        ensures reply { result ≡ ((S.spec self.now.object).next
            (list_of (S.spec self.now.object).next (S.spec self.now.object).init log.now) op).1 }
        ensures state { state.new.words ≡ list_of (S.spec self.now.object).next
            (S.spec self.now.object).init (log.now ++ op ∷ []) }
        ensures room { state.new.room ≡ state.old.room }
    {
        for place in made..log.len() {
            self.object.step(state, log[place]);
        }
        self.object.step(state, op)
    }
}

impl<S: SeqObject + Copy> CoreObject for CoreLog<S> {
    ghost use Rattle.world_objects.proofs.LogEffects.{logs_linearize};
    ghost use Rattle.core_objects.specs.LogPasses.{FitsLog};

    type S = S;

    type P = LogProgram<S>;

    type Pass = CorePass;

    ghost sequential_of = { λ object. object.object };

    ghost program_of = { λ object. record { object = object.object } };

    ghost fits = { λ object. FitsLog (S.spec object.object) };

    ghost linearizes = { λ object n cap steps run. logs_linearize (S.spec object.object) n cap steps run };

    fn sequential(&self) -> &S {
        &self.object
    }

    fn program(&self) -> LogProgram<S> {
        LogProgram {
            object: self.object,
        }
    }

    fn reply(
        &self,
        rows: &Rows<LogProgram<S>>,
        announced: &mut Announced<LogProgram<S>>,
        pass: &mut CorePass,
    ) -> u64 {
        let places = u64::from(pass.callers) * pass.cap;
        let number = u64::from(pass.caller) * pass.cap + announced.number();
        let op = announced.op();
        let made = pass.log.len();
        store_operation(rows, announced, number);
        place_ticket(rows, announced, &mut pass.tickets, places, number);
        load_operations(rows, announced, &pass.tickets, &mut pass.log);
        let reply = self.reply_after(&mut pass.state, &pass.log, made, op);
        pass.log.push(op).unwrap();
        reply
    }
}
