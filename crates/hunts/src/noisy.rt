ghost use Rattle.std.specs.Prelude.{◌≡◌, []};
ghost use Rattle.row_table.specs.declared.rows.Rows.{Rows as TheRows};
ghost use Rattle.row_table.specs.Callers.{who_of, MayGet, IsCallerOf};
ghost use Rattle.world_core.specs.CallSteps.{steps_now};
ghost use Rattle.drv_wrapper.specs.Growth.{Grows};
ghost use Rattle.drv_wrapper.specs.States.{caller_announced, who_announced, op_announced, announced_local, caller_answered, op_answered, reply_answered, answered_local};
ghost use Rattle.client_calls.specs.Asking.{FitsCaller, HasCallLeft, count_after, ComesNoFurther};

use crate::Noise;
use client_calls::Asks;
use drv_wrapper::{Announced, Answered};

/// An object that its callers ask just as they do without noise, and the noise that pauses them
/// between their phases.
#[derive(Drop)]
pub struct Noisy<'a, A> {
    pub asks: &'a A,
    pub noise: &'a Noise,
}

impl<A: Asks> Asks for Noisy<'_, A> {
    type Program = A::Program;

    type Pass = A::Pass;

    ghost serves = { λ noisy. A.serves noisy.asks.now };

    ghost fits = { λ noisy. A.fits noisy.asks.now };

    ghost count = { A.count };

    fn ask(&self, announced: Announced<A::Program>, pass: &mut A::Pass) -> Answered<A::Program>
        // The caller belongs to some table whose callers may ask the object.
        requires table { (r : TheRows A.Program) × A.serves self.now.asks.now r
            × IsCallerOf A.Program.meaning r (caller_announced announced) }
        // The announced call has made no object step.
        requires first { steps_now (announced_local announced) ≡ [] }
        // The pass fits the caller of the announced call.
        requires fits { FitsCaller (A.fits self.now.asks.now) pass.old
            (caller_announced announced) }
        // The pass has a call left, or counts no calls.
        requires left { HasCallLeft (A.count pass.old) }
        // The answered call is of the announced call's caller.
        ensures who { who_of (caller_answered result) ≡ who_announced announced }
        // The caller still belongs to each table that it belonged to, and whose callers may ask the
        // object.
        ensures rows { (r : TheRows A.Program) → A.serves self.now.asks.now r
            → IsCallerOf A.Program.meaning r (caller_announced announced)
            → IsCallerOf A.Program.meaning r (caller_answered result) }
        // The answered call has the announced operation.
        ensures operation { op_answered result ≡ op_announced announced }
        // The program allows the caller to get this reply, with the local that the caller has.
        ensures allowed { MayGet A.Program.meaning (caller_answered result)
            (reply_answered result) }
        // The caller's progress is as before, except for its object steps.
        ensures calls { ComesNoFurther (announced_local announced) (answered_local result) }
        // The caller's local has each look, peek and cut that it had before.
        ensures grows { Grows (announced_local announced) (answered_local result) }
        // The pass fits the caller of the answered call.
        ensures fits { FitsCaller (A.fits self.now.asks.now) pass.new (caller_answered result) }
        // A pass that counts calls counts one more, with the operation and the reply of this call.
        ensures count { A.count pass.new
            ≡ count_after (op_announced announced) (reply_answered result) (A.count pass.old) }
    {
        self.asks.ask(announced, pass)
    }

    fn pause(&self) {
        self.noise.pause()
    }
}
