ghost use Rattle.std.specs.Prelude.{◌≡◌, []};
ghost use Rattle.world_core.specs.CallSteps.{steps_now};
ghost use Rattle.row_table.specs.declared.rows.Rows.{Rows as TheRows};
ghost use Rattle.row_table.specs.Callers.{who_of, IsCallerOf, MayGet};
ghost use Rattle.drv_wrapper.specs.Growth.{Grows};
ghost use Rattle.drv_wrapper.specs.States.{caller_announced, who_announced, op_announced, announced_local, caller_answered, op_answered, reply_answered, answered_local};
ghost use Rattle.client_calls.specs.Asking.{FitsCaller, ComesNoFurther};
ghost use Rattle.core_runs.specs.Inside.{fits_inside, ServesItsRows};

use client_calls::Asks;
use core_objects::CoreObject;
use drv_wrapper::{Announced, Answered};
use row_table::Rows;

/// An object inside the world, with the rows on which its callers make its steps: each caller asks
/// it by its own pass.
#[derive(Drop)]
pub struct InsideObject<'a, O: CoreObject> {
    pub object: &'a O,
    pub rows: &'a Rows<O::P>,
}

impl<O: CoreObject> Asks for InsideObject<'_, O> {
    type Program = O::P;

    type Pass = O::Pass;

    ghost serves = { λ asks r. ServesItsRows O.P.meaning
        (O.program_of asks.object.now) asks.rows.now r };

    ghost fits = { λ asks. fits_inside (O.fits asks.object.now) };

    fn ask(&self, announced: Announced<O::P>, pass: &mut O::Pass) -> Answered<O::P>
        // The announced call's caller belongs to the rows on which the object makes its steps, and
        // these rows were opened with the object's program.
        requires table { (r : TheRows O.P)
            × ServesItsRows O.P.meaning (O.program_of self.now.object.now) self.now.rows.now r
            × IsCallerOf O.P.meaning r (caller_announced announced) }
        // The announced call has made no object step.
        requires first { steps_now (announced_local announced) ≡ [] }
        // The pass fits the caller of the announced call.
        requires fits { FitsCaller (fits_inside (O.fits self.now.object.now)) pass.old
            (caller_announced announced) }
        // The answered call is of the announced call's caller.
        ensures who { who_of (caller_answered result) ≡ who_announced announced }
        // Where the announced call's caller belongs to the rows on which the object makes its
        // steps, the answered call's caller belongs to them too.
        ensures rows { (r : TheRows O.P)
            → ServesItsRows O.P.meaning (O.program_of self.now.object.now) self.now.rows.now r
            → IsCallerOf O.P.meaning r (caller_announced announced)
            → IsCallerOf O.P.meaning r (caller_answered result) }
        // The answered call has the announced operation.
        ensures operation { op_answered result ≡ op_announced announced }
        // The program allows the caller to get this reply, with the local that the caller has.
        ensures allowed { MayGet O.P.meaning (caller_answered result) (reply_answered result) }
        // The caller's progress is as before, except for its object steps.
        ensures calls { ComesNoFurther (announced_local announced) (answered_local result) }
        // The caller's local has each look, peek and cut that it had before.
        ensures grows { Grows (announced_local announced) (answered_local result) }
        // The pass fits the caller of the answered call.
        ensures fits { FitsCaller (fits_inside (O.fits self.now.object.now)) pass.new
            (caller_answered result) }
    {
        self.object.ask(self.rows, announced, pass)
    }
}
