ghost use Rattle.std.specs.Prelude.{◌≡◌, ◌≢◌, ◌++◌, ◌∷◌, ℕ, ◌<◌, ◌≤◌, false, List, [], None, length, vec_len, vec_capacity, slice_index, IfOk};
ghost use Rattle.report_lines.specs.declared.line.Line.{Line};
ghost use Rattle.row_table.specs.Callers.{IsBenchOf, on_bench, stance_on};
ghost use Rattle.client_calls.specs.Clients.{HasSpent};
ghost use Rattle.reports.specs.ReportLayout.{lines_in};
ghost use Rattle.run_report.specs.Places.{AreAllDown};
ghost use Rattle.run_report.specs.Starts.{allotments_by, course_of, IsClientOf, AreAlikeFrom};
ghost use Rattle.run_report.specs.Returns.{IsSpent, IsBackOn, IsBack, AreBack};

use crate::pace::Pace;
use crate::worker::Worker;
use book_base::NoMemory;
use client_calls::{Asks, Client, Ending, Finished, Shared};
use client_scripts::Script;
use reports::Own;
use row_table::Bench;
use world_core::Program;

// Finishes the client of a caller, brings the caller back to its bench, and puts its pass and its
// lines after those of the callers before it. The answer is whether the caller's last call was left
// unjudged for want of memory.
fn bring_back<'a, P: Program, T, E: Ending + Drop, A: Asks<Program = P, Pass = T>>(
    shared: &Shared<A, P>,
    _script: &Script,
    _ending: &E,
    _pace: Pace,
    client: Client<'a, P, T, E>,
    bench: &mut Bench<P>,
    passes: &mut Vec<T>,
    lines: &mut Vec<Own>,
) -> bool
    requires client { IsClientOf P.meaning shared.now.rows.now E.says E.object
        (A.fits shared.now.asks.now) A.count
        (course_of _script.now (allotments_by _pace _script.now) (E.object _ending.now))
        client.sheet.who client }
    requires spent { HasSpent (slice_index (allotments_by _pace _script.now) client.sheet.who)
        client }
    requires bench { IsBenchOf P.meaning shared.now.rows.now bench.old }
    requires gone { on_bench bench.old client.sheet.who ≡ None }
    requires next_pass { length passes.old.items ≡ client.sheet.who }
    requires next_lines { length (lines_in lines.old.items) ≡ client.sheet.who }
    requires passes { vec_len passes.old < vec_capacity passes.old }
    requires lines { vec_len lines.old < vec_capacity lines.old }
    ensures bench { IsBenchOf P.meaning shared.now.rows.now bench.new }
    ensures back { IsBack P.meaning shared.now.rows.now E.says (A.fits shared.now.asks.now) A.count
        (course_of _script.now (allotments_by _pace _script.now) (E.object _ending.now))
        bench.new passes.new.items (lines_in lines.new.items) result client.entry.sheet.who }
    ensures passes { passes.new.items ≡ passes.old.items ++ client.entry.pass ∷ [] }
    ensures lines { (own : List Line)
        × (lines_in lines.new.items ≡ lines_in lines.old.items ++ own ∷ []) }
    ensures others { (i : ℕ) → i ≢ client.entry.sheet.who
        → (on_bench bench.new i ≡ on_bench bench.old i)
        × (stance_on bench.new i ≡ stance_on bench.old i) }
    ensures capacity { (vec_capacity passes.old ≤ vec_capacity passes.new)
        × (vec_capacity lines.old ≤ vec_capacity lines.new) }
{
    let Finished {
        caller,
        pass,
        lines: own,
        ending: _,
        wants_memory,
    } = client.finish(shared.rows);
    shared.rows.back(bench, caller);
    passes.push(pass).unwrap();
    lines.push(Own { lines: own }).unwrap();
    wants_memory
}

/// Finishes the clients of all workers, and brings their callers back to their bench, and their
/// passes back into their list, by caller. It does so whether it answers lines or an error.
///
/// The answer is the list of each caller's lines, by caller, or `NoMemory` where a call was left
/// unjudged for want of memory. The pace says how many phases each caller was given.
pub fn end_all<'a, P: Program, T, E: Ending + Drop, A: Asks<Program = P, Pass = T>>(
    shared: &Shared<A, P>,
    script: &Script,
    ending: &E,
    pace: Pace,
    mut workers: Vec<Worker<'a, P, T, E>>,
    mut lines: Vec<Own>,
    bench: &mut Bench<P>,
    passes: &mut Vec<T>,
) -> Result<Vec<Own>, NoMemory>
    // There is one worker for each caller of the script, the last caller's first. Each has its
    // client, with the operations of its caller and the allotment at this pace, and the client has
    // made all phases of its allotment or was halted within it.
    requires workers { AreAllDown (length script.now.operations)
        (IsSpent P.meaning shared.now.rows.now E.says E.object (A.fits shared.now.asks.now) A.count
        (course_of script.now (allotments_by pace script.now) (E.object ending.now)))
        workers.items }
    // The list of lines is empty.
    requires no_lines { lines.items ≡ [] }
    // The list of lines has capacity for one list for each caller of the script.
    requires lines { length script.now.operations ≤ vec_capacity lines }
    // The bench is a bench of the shared rows.
    requires bench { IsBenchOf P.meaning shared.now.rows.now bench.old }
    // The bench holds none of the script's callers.
    requires gone { (i : ℕ) → i < length script.now.operations → on_bench bench.old i ≡ None }
    // The list of passes is empty.
    requires no_passes { passes.old.items ≡ [] }
    // The list of passes has capacity for one for each caller of the script.
    requires passes { length script.now.operations ≤ vec_capacity passes.old }
    // The bench is still a bench of the shared rows.
    ensures bench { IsBenchOf P.meaning shared.now.rows.now bench.new }
    // The callers after those of the script are on the bench as before.
    ensures others { AreAlikeFrom (length script.now.operations) bench.old bench.new }
    // There is one pass for each caller of the script.
    ensures all_passes { vec_len passes.new ≡ length script.now.operations }
    // The list of passes has at least the capacity that it had.
    ensures capacity { vec_capacity passes.old ≤ vec_capacity passes.new }
    // Each caller of the script is back on the bench with its pass, which fits it, and has made a
    // prefix of its phases: at most as many as its allotment. A pass that counts calls counts those
    // that the object was asked for.
    ensures back { (i : ℕ) → i < length script.now.operations
        → IsBackOn P.meaning shared.now.rows.now (A.fits shared.now.asks.now) A.count
        script.now.operations (allotments_by pace script.now) bench.new passes.new.items i }
    // Where lines are answered, there is one list of them for each caller of the script.
    ensures all_lines { IfOk result (λ lines. vec_len lines ≡ length script.now.operations) }
    // Where lines are answered, each caller has a line for each of its calls, and its lines and its
    // allotment determine just the phases that it has made. A caller without an error line that
    // stopped between two calls, or made all of its calls, is then free for its next call.
    ensures lines { IfOk result (λ lines. AreBack P.meaning shared.now.rows.now E.says
        (A.fits shared.now.asks.now) A.count
        (length script.now.operations) (length script.now.operations)
        (course_of script.now (allotments_by pace script.now) (E.object ending.now))
        bench.new passes.new.items (lines_in lines.items) false) }
{
    let mut wants_memory = false;
    while let Some(worker) = workers.pop() {
        let Worker {
            client,
            allotment: _,
        } = worker;
        let client = client.unwrap();
        wants_memory |= bring_back(
            shared, script, ending, pace, client, bench, passes, &mut lines,
        );
    }
    workers.destroy_empty();
    if wants_memory {
        return Err(NoMemory);
    }
    Ok(lines)
}
