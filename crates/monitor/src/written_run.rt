//! Whole runs of a script that two monitors watch, and what is written of them.

ghost use Rattle.std.specs.Prelude.{◌≡◌, ◌⊎◌, ◌≤◌, ℕ, vec_capacity};
ghost use Rattle.seq_objects.specs.Objects.{kind_spec};
ghost use Rattle.row_table.specs.Callers.{locals_on};
ghost use Rattle.client_calls.specs.Asking.{own_count};
ghost use Rattle.run_report.specs.Starts.{run_allotments, IsUnused, MayRun};
ghost use Rattle.run_report.specs.Returns.{HaveReturnedOutside};
ghost use Rattle.run_report.specs.Passes.{AreUnusedPasses};
ghost use Rattle.byte_streams.specs.Fault.{LeavesSink};
ghost use Rattle.byte_streams.specs.Writing.{EndsWriting};
ghost use Rattle.monitor.specs.Monitoring.{IsMonitor, HaveBeenWatched};
ghost use Rattle.monitor.specs.MonitorTexts.{HasLegalRecords, IsMonitorText};

use crate::answer_output::write_answer;
use crate::monitor_over;
use book_base::NoMemory;
use byte_streams::{Sink, Status};
use client_scripts::Script;
use drv_wrapper::{BlackBox, ObjectPass};
use kind_search::SearchedKind;
use row_table::{Bench, Rows};
use std::alloc::Global;
use std::thread::Threads;
use world_core::{Outside, Program};

/// Runs all callers of a script over an object under test, each in a thread of its own where one
/// can be had. The callers judge no call; beside them two monitors judge what is published
/// (Castañeda and Rodríguez 2023). Writes `legal` where the book of all published records has a
/// legal order for the script's kind, and otherwise `illegal` and the text of a witness.
///
/// The bench holds two callers more than the script has, all unused, and each of the script's
/// callers has its pass of the object, unused too; afterwards the bench holds them all again, and
/// the passes are in their order, whatever the answer.
pub fn monitor_and_write<R: Threads + Sync, B: BlackBox + Sync, K: Sink>(
    rt: &R,
    alloc: Global,
    rows: &Rows,
    bench: &mut Bench,
    object: &B,
    passes: &mut Vec<B::Pass>,
    script: &Script,
    sink: &mut K,
) -> Status
where
    B::Pass: Send,
    // The rows have just the script's callers and two more, all on the bench, unused. For each of
    // the script's, in order, there is a pass of the object's own, unused too.
    requires begins { MayRun ⟦<Outside as Program>⟧.meaning rows.now
        (AreUnusedPasses (B.is_own object.now) B.Pass.caller B.Pass.made B.Pass.cap) script.now 2
        bench.old passes.old.items }
    // Whatever the answer, the bench holds all callers again, each of the script's after a prefix
    // of its phases, and the passes are in their order (`HaveReturnedOutside`).
    ensures returns { HaveReturnedOutside ⟦<Outside as Program>⟧.meaning rows.now
        (B.is_own object.now) B.Pass.caller B.Pass.made B.Pass.cap B.Pass.told script.now
        (run_allotments script.now) bench.new passes.new.items }
    // The list of passes has at least the capacity that it had.
    ensures capacity { vec_capacity passes.old ≤ vec_capacity passes.new }
    // Both monitors are back on the bench, live and idle, without a call.
    ensures monitors { (i : ℕ) → IsMonitor script.now i → IsUnused bench.new i }
    // Unless the status is `NoMemory`, the callers have made all their phases, the passes count and
    // tell just the calls of these, and the monitors have made their rounds (`HaveBeenWatched`).
    ensures watched { ¬ (result ≡ Status.NoMemory) → HaveBeenWatched (kind_spec script.now.kind)
        (own_count B.Pass.made B.Pass.cap B.Pass.told) script.now bench.old bench.new
        passes.new.items }

    // The returned status and the text written are right for the records that the locals on the
    // bench have published. After a failed write only a part of the text is written, and without
    // memory nothing is.
    ensures ends { EndsWriting (IsMonitorText script.now.kind (locals_on bench.new))
        result (K.taken sink.old) (K.taken sink.new) }

    // Where the book of all published records has no legal order, the status is `Found`,
    // `WriteFault` or `NoMemory`.
    ensures found { ¬ HasLegalRecords script.now.kind (locals_on bench.new)
        → (result ≡ Status.Found) ⊎ (result ≡ Status.WriteFault) ⊎ (result ≡ Status.NoMemory) }
    // Where the book of all published records has a legal order, the status is `Fine`, `WriteFault`
    // or `NoMemory`.
    ensures fine { HasLegalRecords script.now.kind (locals_on bench.new)
        → (result ≡ Status.Fine) ⊎ (result ≡ Status.WriteFault) ⊎ (result ≡ Status.NoMemory) }

    // With the status `WriteFault` the sink's count of faults rose in this call; with any other
    // status the count stayed as it was. With `NoMemory` the whole sink stayed as it was.
    ensures faults { LeavesSink K.faults result sink.old sink.new }
{
    let kind = SearchedKind {
        kind: script.kind(),
    };
    match monitor_over(rt, alloc, rows, bench, &kind, object, passes, script) {
        Ok(answer) => write_answer(alloc, kind.kind, &answer, sink),
        Err(NoMemory) => Status::NoMemory,
    }
}
