ghost use Rattle.client_calls.specs.Asking.{fits_own, own_count};
ghost use Rattle.run_report.specs.Starts.{AreFreshPasses};
ghost use Rattle.run_report.specs.Passes.{AreUnusedPasses};

use client_scripts::Script;
use drv_wrapper::{BlackBox, ObjectPass};
use row_table::Rows;

/// Passes of an object outside the world with which no call was made fit their callers, have
/// counted no call, and tell of none.
pub fn passes_are_fresh<B: BlackBox>(
    _rows: &Rows,
    _object: &B,
    _passes: &Vec<B::Pass>,
    _script: &Script,
)
    // There is a pass of the object's own for each caller of the script, in order. No call was made
    // with it, and one may be made for each operation of its caller.
    requires { AreUnusedPasses (B.is_own _object.now) B.Pass.caller B.Pass.made B.Pass.cap
        _script.now.operations _passes.now.items }
    ensures { AreFreshPasses _rows.now (fits_own (B.is_own _object.now) B.Pass.caller)
        (own_count B.Pass.made B.Pass.cap B.Pass.told) _script.now.operations _passes.now.items }
{}
