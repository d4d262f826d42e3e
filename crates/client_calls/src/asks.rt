ghost use Rattle.std.specs.Prelude.{◌≡◌, ℕ, [], None, List, Option};
ghost use Rattle.world_core.specs.Local.{Object_step};
ghost use Rattle.world_core.specs.CallSteps.{steps_now};
ghost use Rattle.row_table.specs.declared.rows.Rows.{Rows as TheRows};
ghost use Rattle.row_table.specs.Callers.{who_of, MayGet, IsCallerOf};
ghost use Rattle.drv_wrapper.specs.Growth.{Grows};
ghost use Rattle.drv_wrapper.specs.States.{caller_announced, who_announced, op_announced, announced_local, caller_answered, op_answered, reply_answered, answered_local};
ghost use Rattle.client_calls.specs.Asking.{Fits, FitsCaller, PassCount, HasCallLeft, count_after, ComesNoFurther};

use drv_wrapper::{Announced, Answered};
use world_core::Program;

/// How a client asks for the reply to an announced call: it asks an object outside the world, or
/// one inside the world, on whose words the client's caller makes the steps itself.
pub trait Asks {
    /// The program of the world that the callers' rows are in.
    type Program: Program;

    /// What one caller holds to ask the object.
    type Pass;

    /// The rows whose callers may ask the object. An object inside the world may be asked only by
    /// the callers of the rows on which its steps are made.
    ghost serves: { Self → TheRows Self.Program → Type 0 };

    /// Which caller a pass fits, by the number of callers, the cap, the pass, the caller's number,
    /// and the object steps of all its calls in order.
    ghost fits: { Self → ℕ → ℕ → Self.Pass → ℕ → List Object_step → Type 0 };

    /// How many calls were made with a pass, how many may be, and what it tells of them; `None`
    /// where the pass counts no calls.
    ghost count: { Self.Pass → Option PassCount } = { λ pass. None };

    /// Asks the object once for the reply to the announced call, and keeps the reply in the
    /// answered call. This is one phase of the caller, and no further one is made.
    fn ask(
        &self,
        announced: Announced<Self::Program>,
        pass: &mut Self::Pass,
    ) -> Answered<Self::Program>
        // The caller belongs to some table whose callers may ask the object.
        requires table { (r : TheRows Self.Program) × serves self.now r
            × IsCallerOf Self.Program.meaning r (caller_announced announced) }
        // The announced call has made no object step.
        requires first { steps_now (announced_local announced) ≡ [] }
        // The pass fits the caller of the announced call.
        requires fits { FitsCaller (fits self.now) pass.old (caller_announced announced) }
        // The pass has a call left, or counts no calls.
        requires left { HasCallLeft (count pass.old) }
        // The answered call is of the announced call's caller.
        ensures who { who_of (caller_answered result) ≡ who_announced announced }
        // The caller still belongs to each table that it belonged to, and whose callers may ask the
        // object.
        ensures rows { (r : TheRows Self.Program) → serves self.now r
            → IsCallerOf Self.Program.meaning r (caller_announced announced)
            → IsCallerOf Self.Program.meaning r (caller_answered result) }
        // The answered call has the announced operation.
        ensures operation { op_answered result ≡ op_announced announced }
        // The program allows the caller to get this reply, with the local that the caller has.
        ensures allowed { MayGet Self.Program.meaning (caller_answered result)
            (reply_answered result) }
        // The caller's progress is as before, except for its object steps.
        ensures calls { ComesNoFurther (announced_local announced) (answered_local result) }
        // The caller's local has each look, peek and cut that it had before.
        ensures grows { Grows (announced_local announced) (answered_local result) }
        // The pass fits the caller of the answered call.
        ensures fits { FitsCaller (fits self.now) pass.new (caller_answered result) }
        // A pass that counts calls counts one more, with the operation and the reply of this call.
        ensures count { count pass.new
            ≡ count_after (op_announced announced) (reply_answered result) (count pass.old) };

    /// Pauses before each phase of a client in a run. By default it does nothing; an impl may give
    /// the thread away here, so that calls overlap which otherwise would not. It gets neither rows
    /// nor a caller, so it can't break what the contract of a run promises.
    fn pause(&self) {}
}
