ghost use Rattle.std.specs.Prelude.{◌≡◌, ◌<◌, Some};
ghost use Rattle.row_table.specs.declared.rows.Rows.{Rows as TheRows};
ghost use Rattle.row_table.specs.Callers.{who_of, IsCallerOf, MayGet};
ghost use Rattle.world_core.specs.declared.program.Outside.{Outside};
ghost use Rattle.drv_wrapper.specs.Growth.{Grows};
ghost use Rattle.drv_wrapper.specs.States.{caller_announced, who_announced, op_announced, announced_local, caller_answered, op_answered, reply_answered, answered_local};
ghost use Rattle.client_calls.specs.Asking.{count_after, ComesNoFurther, fits_own, own_count};

use crate::asks::Asks;
use drv_wrapper::{Announced, Answered, BlackBox, ask};
use world_core::{Outside, Program};

/// An object under test, outside the world: each caller asks it by its own pass.
#[derive(Drop)]
pub struct OutsideObject<'a, B> {
    pub object: &'a B,
}

impl<B: BlackBox> Asks for OutsideObject<'_, B> {
    type Program = Outside;

    type Pass = B::Pass;

    ghost serves = { λ asks r. Unit {0} };

    ghost fits = { λ asks. fits_own (B.is_own asks.object.now) B.Pass.caller };

    ghost count = { own_count B.Pass.made B.Pass.cap B.Pass.told };

    fn ask(&self, announced: Announced, pass: &mut B::Pass) -> Answered
        // The pass is one of this object's, and that of the announced call's caller.
        requires own { B.is_own self.now.object.now pass.old
            × (B.Pass.caller pass.old ≡ who_announced announced) }
        // The pass has made fewer calls than it may make.
        requires left { B.Pass.made pass.old < B.Pass.cap pass.old }
        // The answered call is of the announced call's caller.
        ensures who { who_of (caller_answered result) ≡ who_announced announced }
        // The caller still belongs to each table that it belonged to.
        ensures rows { (r : TheRows Outside) → Unit {0}
            → IsCallerOf ⟦<Outside as Program>⟧.meaning r (caller_announced announced)
            → IsCallerOf ⟦<Outside as Program>⟧.meaning r (caller_answered result) }
        // The answered call has the announced operation.
        ensures operation { op_answered result ≡ op_announced announced }
        // The program allows the caller to get this reply, with the local that the caller has.
        ensures allowed { MayGet ⟦<Outside as Program>⟧.meaning (caller_answered result)
            (reply_answered result) }
        // The caller's progress is as before, except for its object steps.
        ensures calls { ComesNoFurther (announced_local announced) (answered_local result) }
        // The caller's local has each look, peek and cut that it had before.
        ensures grows { Grows (announced_local announced) (answered_local result) }
        // The pass is still one of this object's, and that of the caller.
        ensures fits { B.is_own self.now.object.now pass.new
            × (B.Pass.caller pass.new ≡ who_of (caller_answered result)) }
        // The pass counts one call more, with the operation and the reply of this call.
        ensures count { own_count B.Pass.made B.Pass.cap B.Pass.told pass.new
            ≡ count_after (op_announced announced) (reply_answered result)
            (own_count B.Pass.made B.Pass.cap B.Pass.told pass.old) }
    {
        ask(announced, self.object, pass)
    }
}
