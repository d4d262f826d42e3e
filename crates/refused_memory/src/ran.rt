ghost use Rattle.std.specs.Prelude.{◌≡◌, length, vec_len};
ghost use Rattle.run_report.specs.Places.{AreInOrder};
ghost use Rattle.run_report.specs.Passes.{IsOwnPass, AreUnusedPasses};

use crate::came::Came;
use anyhow::{Result, anyhow};
use book_base::{MAX_CALLS, NoMemory};
use client_scripts::{Script, read_script};
use drv_wrapper::{BlackBox, ObjectPass};
use kind_search::SearchedKind;
use reports::Counts;
use row_table::{Bench, Rows};
use run_report::run_over;
use std::alloc::Global;
use std::thread::Threads;
use test_objects::{LogBox, Lossy};
use world_core::Outside;

/// The script of two callers of a set that loses each second value: one puts 1 and 2 in and asks
/// for 2, and the other asks for 1.
const LOST: &[u8] = b"script 2\n\
      object set\n\
      callers 2\n\
      calls 3 1\n\
      0 0 add 1\n\
      0 1 add 2\n\
      0 2 has 2\n\
      1 0 has 1\n\
      turns\n\
      end\n";

/// A script that is run over an object that loses each second put, in a table of rows of its own.
#[derive(Drop)]
pub struct Ran {
    script: Script,
    came: Came,
}

impl Ran {
    /// The script of the set, before its run.
    pub fn new(alloc: Global) -> Result<Ran> {
        let script = read_script(alloc, LOST).map_err(|_| anyhow!("the script can't be read"))?;
        Ok(Ran {
            script,
            came: Came::Nothing,
        })
    }

    /// Runs the script.
    pub fn act<R: Threads + Sync>(&mut self, rt: &R, alloc: Global) {
        self.came = run_box(rt, alloc, &self.script).unwrap_or(Came::NoMemory);
    }

    /// The outcome of the run.
    pub fn came(&self) -> Came {
        self.came
    }
}

// Runs a script over an object that loses each second put, and answers the outcome.
fn run_box<R: Threads + Sync>(rt: &R, alloc: Global, script: &Script) -> Result<Came, NoMemory> {
    let machine = Lossy {
        object: script.kind(),
    };
    let (object, mut passes) = LogBox::open(alloc, machine, script.callers(), MAX_CALLS)?;
    let came = run_beside(rt, alloc, script, &object, &mut passes);
    object.close(passes);
    came
}

// Runs a script over an object, and answers the outcome, which is wrong where a caller isn't back
// on the bench or a pass isn't at its caller's place in the list. It is also wrong where memory was
// lacking after a call was made: one refusal leaves no call without a judgement, since the call is
// judged once more, and so the lost value is always found.
fn run_beside<R: Threads + Sync, B: BlackBox + Sync>(
    rt: &R,
    alloc: Global,
    script: &Script,
    object: &B,
    passes: &mut Vec<B::Pass>,
) -> Result<Came, NoMemory>
where
    B::Pass: Send,
    requires passes { AreUnusedPasses (B.is_own object.now) B.Pass.caller B.Pass.made B.Pass.cap
        script.now.operations passes.old.items }
    ensures all_passes { vec_len passes.new ≡ length script.now.operations }
    ensures passes { AreInOrder (IsOwnPass (B.is_own object.now) B.Pass.caller) passes.new.items }
{
    let (rows, mut bench) = Rows::open(alloc, Outside, script.callers(), MAX_CALLS)?;
    let kind = SearchedKind {
        kind: script.kind(),
    };
    let report = run_over(rt, alloc, &rows, &mut bench, &kind, object, passes, script);
    let is_whole = are_back(&bench, passes, script.callers());
    // The outcome is answered even where no memory is left for the words of the closed table.
    let _world = rows.close(alloc, bench);
    Ok(match report {
        Ok(report) if is_whole && tells_of_the_lost_value(report.counts()) => Came::Ordinary,
        Err(NoMemory) if is_whole && were_never_asked(passes) => Came::NoMemory,
        _ => Came::Wrong,
    })
}

// Whether the counts of a report are those of all calls, and an error is among these: the second
// caller's call may be another one.
fn tells_of_the_lost_value(counts: Counts) -> bool {
    counts.calls == 4 && counts.errors > 0
}

// Whether no call was made with any pass.
fn were_never_asked<P: ObjectPass>(passes: &[P]) -> bool {
    passes.iter().all(|pass| pass.made() == 0)
}

// Whether all callers are on the bench, and their passes in order.
fn are_back<P: ObjectPass>(bench: &Bench, passes: &[P], callers: u32) -> bool {
    (0..callers).all(|caller| {
        bench.holds(caller)
            && passes
                .get(caller as usize)
                .is_some_and(|pass| pass.caller() == caller)
    })
}
