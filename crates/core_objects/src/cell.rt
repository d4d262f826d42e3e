ghost use Rattle.std.specs.Prelude.{◌≤◌, IfOk};
ghost use Rattle.book_base.specs.declared.TheConstants.{MAX_CALLERS, MAX_CALLS};
ghost use Rattle.core_objects.specs.CoreObjects.{ArePassesFor};
ghost use Rattle.core_objects.specs.OneWordPasses.{FitsOneWord};

use crate::core_object::CoreObject;
use crate::one_word_pass::OneWordPass;
use book_base::{BAD, MAX_CALLERS, MAX_CALLS, NoMemory, OpWord, SeqObject};
use drv_wrapper::Announced;
use row_table::Rows;
use seq_objects::{DONE, Register, wrapping_value_reply};
use std::alloc::Global;
use world_core::{InWorld, Program};

/// The operation word of the write of 0.
const WRITE_0: OpWord = 1 << 32;

/// The operation word of the read.
const READ: OpWord = 2 << 32;

/// The program of the cell: a write makes one store of its value into the one object word, a read
/// makes one load, and nothing else makes a step.
#[derive(Clone, Copy, Debug, PartialEq, Eq)]
pub struct CellProgram;

impl Program for CellProgram {
    ghost use Rattle.world_objects.specs.OneWord.{one_word_program};
    ghost use Rattle.world_objects.specs.TallyAndCell.{cell};

    ghost meaning = { λ program n cap. one_word_program cell };

    fn object_words(&self, _n: u32, _cap: u64) -> u64 {
        1
    }
}

impl InWorld for CellProgram {}

/// What one caller holds to ask the cell.
pub type CoreCellPass = OneWordPass;

/// A register inside the world.
#[derive(Drop)]
pub struct CoreCell {
    register: Register,
}

impl CoreCell {
    /// Opens the cell, with a pass for each of `n` callers with `cap` calls each, in order.
    pub fn open(alloc: Global, n: u32, cap: u64) -> Result<(CoreCell, Vec<CoreCellPass>), NoMemory>
        // There is at least one caller.
        requires some_callers { 1 ≤ n }
        // There are at most `MAX_CALLERS` callers.
        requires few_callers { n ≤ MAX_CALLERS }
        // Each caller has at least one call.
        requires some_calls { 1 ≤ cap }
        // Each caller has at most `MAX_CALLS` calls.
        requires few_calls { cap ≤ MAX_CALLS }
        // There is one pass for each caller, in order, which fits the caller, the number of callers
        // and the cap.
        ensures passes { IfOk result (λ r. ArePassesFor FitsOneWord n cap r.1.items) }
    {
        let passes = OneWordPass::for_callers(alloc, n, cap)?;
        Ok((CoreCell { register: Register }, passes))
    }
}

impl CoreObject for CoreCell {
    ghost use Rattle.world_objects.proofs.TallyAndCell.{cells_linearize_registers};
    ghost use Rattle.core_objects.specs.OneWordPasses.{FitsOneWord};

    type S = Register;

    type P = CellProgram;

    type Pass = CoreCellPass;

    ghost sequential_of = { λ object. object.register };

    ghost program_of = { λ object. record {} };

    ghost fits = { λ object. FitsOneWord };

    ghost linearizes = { λ object n cap steps run. cells_linearize_registers n cap steps run };

    fn sequential(&self) -> &Register {
        &self.register
    }

    fn program(&self) -> CellProgram {
        CellProgram
    }

    fn reply(
        &self,
        rows: &Rows<CellProgram>,
        announced: &mut Announced<CellProgram>,
        _pass: &mut CoreCellPass,
    ) -> u64 {
        let op = announced.op();
        if op == READ {
            let found = announced.object_load(rows, 0);
            return wrapping_value_reply(found);
        }
        if !self.register.known(op) {
            return BAD;
        }
        announced.object_store(rows, 0, (op - WRITE_0) as u64);
        DONE
    }
}
