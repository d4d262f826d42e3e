//! A run of a script with noise.

ghost use Rattle.std.specs.Prelude.{IfOk};
ghost use Rattle.run_report.specs.Passes.{AreUnusedPasses};
ghost use Rattle.hunts.specs.Hunting.{IsRun};

use crate::Noise;
use crate::noisy::Noisy;
use book_base::{MAX_CALLS, NoMemory};
use client_calls::{OutsideObject, Shared};
use client_scripts::Script;
use drv_wrapper::{BlackBox, ObjectPass};
use kind_search::SearchedKind;
use reports::Report;
use row_table::Rows;
use run_report::{passes_are_fresh, run_asked};
use std::alloc::Global;
use std::thread::Threads;
use world_core::Outside;

/// Runs all callers of a script over an object, each in a thread of its own where one can be had,
/// with noise between their phases. It opens the table of rows for the run, and closes it after the
/// run.
pub(crate) fn run_once<R: Threads + Sync, B: BlackBox + Sync>(
    rt: &R,
    alloc: Global,
    object: &B,
    passes: &mut Vec<B::Pass>,
    script: &Script,
    noise: &Noise,
) -> Result<Report, NoMemory>
where
    B::Pass: Send,
    requires passes { AreUnusedPasses (B.is_own object.now) B.Pass.caller B.Pass.made B.Pass.cap
        script.now.operations passes.old.items }
    ensures { IfOk result (IsRun B.Pass.made B.Pass.told script.now passes.new.items) }
{
    let (rows, mut bench) = Rows::open(alloc, Outside, script.callers(), MAX_CALLS)?;
    passes_are_fresh(&rows, object, passes, script);
    let kind = SearchedKind {
        kind: script.kind(),
    };
    let outside = OutsideObject { object };
    let asks = Noisy {
        asks: &outside,
        noise,
    };
    let shared = Shared {
        rows: &rows,
        asks: &asks,
    };
    let report = run_asked(rt, alloc, &shared, &mut bench, &kind, passes, script);
    // The report is answered even where no memory is left for the words of the closed table.
    let _world = rows.close(alloc, bench);
    report
}
