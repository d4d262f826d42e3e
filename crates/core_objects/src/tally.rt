ghost use Rattle.std.specs.Prelude.{◌≡◌, ◌≤◌, IfOk};
ghost use Rattle.book_base.specs.declared.TheConstants.{MAX_CALLERS, MAX_CALLS};
ghost use Rattle.seq_objects.specs.Words.{is_operation_of};
ghost use Rattle.seq_objects.specs.Words as words;
ghost use Rattle.core_objects.specs.CoreObjects.{ArePassesFor};
ghost use Rattle.core_objects.specs.OneWordPasses.{FitsOneWord};

use crate::core_object::CoreObject;
use crate::one_word_pass::OneWordPass;
use book_base::{BAD, MAX_CALLERS, MAX_CALLS, NoMemory, OpWord, SeqObject};
use drv_wrapper::Announced;
use row_table::Rows;
use seq_objects::{Counter, wrapping_value_reply};
use std::alloc::Global;
use world_core::{InWorld, Program};

/// The program of the tally: an increment makes one addition of 1 on the one object word, and
/// nothing else makes a step.
#[derive(Clone, Copy, Debug, PartialEq, Eq)]
pub struct TallyProgram;

impl Program for TallyProgram {
    ghost use Rattle.world_objects.specs.OneWord.{one_word_program};
    ghost use Rattle.world_objects.specs.TallyAndCell.{tally};

    ghost meaning = { λ program n cap. one_word_program tally };

    fn object_words(&self, _n: u32, _cap: u64) -> u64 {
        1
    }
}

impl InWorld for TallyProgram {}

/// What one caller holds to ask the tally.
pub type CoreTallyPass = OneWordPass;

/// A counter inside the world.
#[derive(Drop)]
pub struct CoreTally {
    counter: Counter,
}

impl CoreTally {
    /// Opens the tally, with a pass for each of `n` callers with `cap` calls each, in order.
    pub fn open(
        alloc: Global,
        n: u32,
        cap: u64,
    ) -> Result<(CoreTally, Vec<CoreTallyPass>), NoMemory>
        // There is at least one caller.
        requires some_callers { 1 ≤ n }
        // There are at most `MAX_CALLERS` callers.
        requires few_callers { n ≤ MAX_CALLERS }
        // Each caller has at least one call.
        requires some_calls { 1 ≤ cap }
        // Each caller has at most `MAX_CALLS` calls.
        requires few_calls { cap ≤ MAX_CALLS }
        // There is one pass for each caller, in order, which fits the caller, the number of callers
        // and the cap.
        ensures passes { IfOk result (λ r. ArePassesFor FitsOneWord n cap r.1.items) }
    {
        let passes = OneWordPass::for_callers(alloc, n, cap)?;
        Ok((CoreTally { counter: Counter }, passes))
    }

    // Whether a call of the tally with this operation makes a step on its word.
    fn makes_step(&self, op: OpWord) -> bool
        ensures { result ≡ is_operation_of op words.inc }
    {
        self.counter.known(op)
    }
}

impl CoreObject for CoreTally {
    ghost use Rattle.world_objects.proofs.TallyAndCell.{tallies_linearize_counters};
    ghost use Rattle.core_objects.specs.OneWordPasses.{FitsOneWord};

    type S = Counter;

    type P = TallyProgram;

    type Pass = CoreTallyPass;

    ghost sequential_of = { λ object. object.counter };

    ghost program_of = { λ object. record {} };

    ghost fits = { λ object. FitsOneWord };

    ghost linearizes = { λ object n cap steps run. tallies_linearize_counters n cap steps run };

    fn sequential(&self) -> &Counter {
        &self.counter
    }

    fn program(&self) -> TallyProgram {
        TallyProgram
    }

    fn reply(
        &self,
        rows: &Rows<TallyProgram>,
        announced: &mut Announced<TallyProgram>,
        _pass: &mut CoreTallyPass,
    ) -> u64 {
        if !self.makes_step(announced.op()) {
            return BAD;
        }
        let found = announced.object_add(rows, 0, 1);
        wrapping_value_reply(found)
    }
}
