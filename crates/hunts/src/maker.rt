ghost use Rattle.std.specs.Prelude.{IfOk};
ghost use Rattle.run_report.specs.Passes.{AreUnusedPasses};

use crate::Noise;
use book_base::NoMemory;
use client_scripts::Script;
use drv_wrapper::{BlackBox, ObjectPass};
use std::alloc::Global;

/// Makes the objects that a hunt runs over: a new one for each run.
pub trait Maker<B: BlackBox> {
    /// Opens an object for the callers of a script, and an unused pass for each caller, in order,
    /// for at least as many calls as the caller has operations. The object may make its cells and
    /// locks of `noise`, or keep it and pause with it, at steps where it may be wrong.
    fn open(
        &self,
        alloc: Global,
        script: &Script,
        noise: Noise,
    ) -> Result<(B, Vec<B::Pass>), NoMemory>
        // There is an unused pass of the object for each caller of the script, in order, with which
        // one call may be made for each operation of its caller.
        ensures unused { IfOk result (λ r. AreUnusedPasses (B.is_own r.0) B.Pass.caller B.Pass.made
            B.Pass.cap script.now.operations r.1.items) };
}
