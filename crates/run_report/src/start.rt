ghost use Rattle.std.specs.Prelude.{◌≡◌, ℕ, ◌*◌, ◌<◌, ◌≤◌, [], None, length, slice_index, vec_len, vec_capacity, IfOk, OnOk, OnErr};
ghost use Rattle.row_table.specs.Callers.{IsBenchOf, IsCallerOf, who_of, on_bench};
ghost use Rattle.report_lines.specs.Allotments.{operations_at};
ghost use Rattle.text_fields.specs.declared.version.Version.TheVariants.{Second};
ghost use Rattle.client_scripts.specs.Plans.{IsPlan};
ghost use Rattle.run_report.specs.Places.{AreAllDown, AreInOrder};
ghost use Rattle.run_report.specs.Starts.{run_allotments, course_of, HaveCapacityFor, MayStart, AreAlikeFrom, IsFresh, IsCapacityFor, IsFreshPass, AreFreshPasses, IsStart};

use crate::worker::Worker;
use book_base::NoMemory;
use client_calls::{Asks, CallerState, Client, Ending, Shared, Sheet};
use client_scripts::{PHASES, Script};
use reports::Own;
use row_table::{Bench, Caller};
use std::alloc::Global;
use world_core::Program;

/// How many phases a script gives a caller: those up to its stop, where it has one, and else all
/// five of each call.
pub fn allotment_of(script: &Script, who: u32) -> u64
    // The script is one that a text of version 2 can have.
    requires plan { IsPlan Second script.now }
    // The caller is one of the script's.
    requires who { who < length script.now.operations }
    // The answer is how many phases the caller may make by the script, where it works by itself.
    ensures allotment { result ≡ slice_index (run_allotments script.now) who }
    // The answer is at most five phases for each of the caller's operations.
    ensures within { result ≤ 5 * length (operations_at script.now.operations who) }
{
    match script.stop(who) {
        Some(stop) => stop,
        None => PHASES * script.calls(who),
    }
}

// A worker that has made no phase, for a caller that is off its bench and has made no call. The
// worker's allotment is all the caller's phases, up to its stop where it has one.
fn begin<'a, P: Program, T, E: Ending, A: Asks<Program = P, Pass = T>>(
    _shared: &Shared<A, P>,
    caller: Caller<P>,
    pass: T,
    script: &'a Script,
    own: Own,
    ending: &E,
) -> Worker<'a, P, T, E>
    requires plan { IsPlan Second script.now }
    requires rows { HaveCapacityFor script.now _shared.now.rows.now }
    requires caller { IsCallerOf P.meaning _shared.now.rows.now caller }
    requires fresh { IsFresh caller }
    requires pass { IsFreshPass _shared.now.rows.now (A.fits _shared.now.asks.now) A.count
        script.now.operations (who_of caller) pass }
    requires room { IsCapacityFor script.now.operations (who_of caller) own }
    requires below { who_of caller < length script.now.operations }
    ensures { IsStart P.meaning _shared.now.rows.now E.says E.object
        (A.fits _shared.now.asks.now) A.count
        (course_of script.now (run_allotments script.now) (E.object ending.now))
        (who_of caller) result }
{
    let who = caller.who();
    let operations = script.operations(who);
    let allotment = allotment_of(script, who);
    let Own { lines } = own;
    let ending = ending.another();
    let sheet = Sheet {
        who,
        operations,
        lines,
        ending,
        gathered: None,
        standing: None,
    };
    let client = Client {
        stand: CallerState::Idle(caller),
        pass,
        sheet,
    };
    Worker {
        client: Some(client),
        allotment,
    }
}

// Makes an empty list of lines for each caller, with capacity for a line for each of its
// operations.
fn make_capacity(alloc: Global, script: &Script) -> Result<Vec<Own>, NoMemory>
    ensures all { IfOk result (λ room. vec_len room ≡ length script.now.operations) }
    ensures capacity { IfOk result (λ room. length script.now.operations ≤ vec_capacity room) }
    ensures room { IfOk result
        (λ room. AreInOrder (IsCapacityFor script.now.operations) room.items) }
{
    let callers = script.callers();
    let mut room = Vec::with_capacity(alloc, callers as usize)?;
    for i in 0..callers {
        let lines = Vec::with_capacity(alloc, script.calls(i) as usize)?;
        room.push(Own { lines }).unwrap();
    }
    Ok(room)
}

/// Takes the callers of a script off their bench, from the last to the first, each into a worker
/// for all its phases, up to its stop where it has one. It answers the workers, and an empty list
/// for the lines of all callers.
///
/// The list `passes` has the callers' passes, in order, and each worker gets an ending of the kind
/// of `ending`. Where memory is lacking, no caller leaves the bench, and no pass the list.
pub fn start_all<'a, P: Program, T, E: Ending, A: Asks<Program = P, Pass = T>>(
    alloc: Global,
    shared: &Shared<A, P>,
    bench: &mut Bench<P>,
    passes: &mut Vec<T>,
    script: &'a Script,
    ending: &E,
) -> Result<(Vec<Worker<'a, P, T, E>>, Vec<Own>), NoMemory>
    // The rows have capacity for the script's callers and their calls. The bench is a bench of the
    // rows, and holds each of these callers, live and idle, without a call.
    requires starts { MayStart P.meaning script.now shared.now.rows.now bench.old }
    // There is a pass for each caller of the script, in order, which fits the caller. Where it
    // counts calls, none was made with it, and one may be made for each operation of the caller.
    requires passes { AreFreshPasses shared.now.rows.now (A.fits shared.now.asks.now) A.count
        script.now.operations passes.old.items }
    // The bench is still a bench of the shared rows.
    ensures bench { IsBenchOf P.meaning shared.now.rows.now bench.new }
    // The callers after those of the script are on the bench as before.
    ensures others { AreAlikeFrom (length script.now.operations) bench.old bench.new }
    // The list of passes keeps its capacity.
    ensures capacity { vec_capacity passes.new ≡ vec_capacity passes.old }
    // Where memory is lacking, the callers may still start.
    ensures starts { OnErr result (MayStart P.meaning script.now shared.now.rows.now bench.new) }
    // Where memory is lacking, the passes are still in the list, as they were.
    ensures passes { OnErr result (AreFreshPasses shared.now.rows.now (A.fits shared.now.asks.now)
        A.count script.now.operations passes.new.items) }
    // Where workers are answered, the bench holds none of the script's callers any more.
    ensures gone { OnOk result
        ((i : ℕ) → i < length script.now.operations → on_bench bench.new i ≡ None) }
    // Where workers are answered, no pass is left in the list.
    ensures no_passes { OnOk result (passes.new.items ≡ []) }
    // There is one worker for each caller of the script, the last caller's first. Each has its
    // client, before its first phase, with the operations of its caller and an allotment of all its
    // phases, up to its stop where it has one.
    ensures workers { IfOk result (λ r. AreAllDown (length script.now.operations)
        (IsStart P.meaning shared.now.rows.now E.says E.object (A.fits shared.now.asks.now) A.count
        (course_of script.now (run_allotments script.now) (E.object ending.now))) r.0.items) }
    // The answered list of lines is empty.
    ensures no_lines { IfOk result (λ r. r.1.items ≡ []) }
    // The list of lines has capacity for one list for each caller of the script.
    ensures room { IfOk result (λ r. length script.now.operations ≤ vec_capacity r.1) }
{
    let mut left = script.callers();
    let mut lines = make_capacity(alloc, script)?;
    let mut workers = Vec::with_capacity(alloc, left as usize)?;
    while left > 0 {
        left -= 1;
        let pass = passes.pop().unwrap();
        let own = lines.pop().unwrap();
        let caller = shared.rows.part(bench, left);
        let worker = begin(shared, caller, pass, script, own, ending);
        workers.push(worker).unwrap();
    }
    Ok((workers, lines))
}
