ghost use Rattle.std.specs.Prelude.{◌≡◌, false, None, IfOk};
ghost use Rattle.std.specs.List.{list_any};
ghost use Rattle.report_lines.specs.Lines.{any_error};
ghost use Rattle.core_objects.specs.CoreObjects.{AreOpenedWith, ArePassesFor};
ghost use Rattle.run_report.specs.Starts.{run_allotments, MayRun};
ghost use Rattle.run_report.specs.Returns.{HaveReturned};
ghost use Rattle.run_report.specs.Reporting.{IsRunReport};
ghost use Rattle.core_runs.specs.Inside.{fits_inside};

use crate::inside_object::InsideObject;
use book_base::NoMemory;
use client_calls::Shared;
use client_scripts::Script;
use core_objects::{CoreObject, runs_of};
use reports::Report;
use row_table::{Bench, Rows};
use run_report::run_asked;
use search_hints::SearchHints;
use std::alloc::Global;
use std::thread::Threads;

/// Runs all callers of a script, each in a thread of its own where one can be had. Each caller asks
/// an object inside the world by its pass, with the object's steps as events of the same world, and
/// judges each of its calls by the sequential object. The answer is their report, which is lawful.
/// No line of it is an error, since every run of the object's program is linearizable (Herlihy and
/// Wing 1990).
///
/// Whatever the answer, the bench holds all callers again, the passes are in their order and fit
/// the object steps that their callers have made, and each caller has made a prefix of its phases.
/// Where a report is answered, each caller has made all of its phases, and one that stopped between
/// two calls, or made all of its calls, is free for its next call. `NoMemory` is answered before
/// the first call, or where memory was lacking for a second judgement of a call too, which is made
/// when all callers have ended.
pub fn run_core<R: Threads + Sync, O: CoreObject + Sync>(
    rt: &R,
    alloc: Global,
    rows: &Rows<O::P>,
    bench: &mut Bench<O::P>,
    object: &O,
    passes: &mut Vec<O::Pass>,
    script: &Script,
) -> Result<Report, NoMemory>
where
    O::S: SearchHints + Sync,
    O::P: Send + Sync,
    O::Pass: Send,
    // The rows were opened with the program of this object.
    requires program { AreOpenedWith O.P.meaning (O.program_of object.now) rows.now }
    // The rows have just the script's callers, who are on the bench, unused. For each caller of the
    // rows, in order, there is a pass that fits it before its first object step, with the number of
    // callers and the cap of the rows.
    requires begins { MayRun O.P.meaning rows.now
        (λ _. ArePassesFor (O.fits object.now) rows.now.callers rows.now.cap) script.now 0 bench.old
        passes.old.items }
    // Whatever the answer, the bench holds all callers again, each after a prefix of its phases,
    // and the passes are in their order and fit the object steps of their callers (`HaveReturned`).
    ensures returns { HaveReturned O.P.meaning rows.now (fits_inside (O.fits object.now))
        (λ pass. None) script.now (run_allotments script.now) bench.new passes.new.items }
    // A report that is answered is lawful and tells of the callers on the bench, and each of them
    // that may go on is free (`IsRunReport`).
    ensures report { IfOk result (IsRunReport (O.S.spec (O.sequential_of object.now)) O.P.meaning
        rows.now (λ pass. None) script.now (run_allotments script.now) bench.new passes.new.items) }
    // No line of a report is an error.
    ensures no_error { IfOk result (λ report. list_any any_error report.lines ≡ false) }
{
    runs_of(object);
    let asks = InsideObject { object, rows };
    let shared = Shared { rows, asks: &asks };
    run_asked(
        rt,
        alloc,
        &shared,
        bench,
        object.sequential(),
        passes,
        script,
    )
}
