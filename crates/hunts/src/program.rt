//! The one call that the `main` of a crate needs to hunt over an object of its own.

ghost use Rattle.std.specs.Prelude.{None};
ghost use Rattle.client_scripts.specs.Drawn.{IsWorkload};

use crate::asked::Asked;
use crate::hunting::hunt_by_words;
use crate::shown::Shown;
use crate::underway::Underway;
use crate::watchdog::watch;
use crate::watched::WatchedObjects;
use crate::{Maker, Onlooker, Settings};
use byte_streams::{Status, StdSink};
use client_scripts::{Script, write_script};
use drv_wrapper::{BlackBox, ObjectPass};
use reports::Counts;
use std::env;
use std::io::ErrorKind;
use std::process::ExitCode;
use std::rt::Env;
use std::sync::atomic::AtomicU64;
use std::thread::{JoinHandle, Threads, spawn};
use std::time::Clock;

/// The code that the program ends with where the system doesn't hand over the command words, for
/// another reason than want of memory.
const NO_WORDS: u8 = 7;

// Counts the runs of a hunt, and keeps the seed of the last one. Where it is to tell of each run, it
// writes the seed and the script to standard error before the run begins.
#[derive(Drop)]
struct RunTeller<'a, R> {
    rt: &'a R,
    tells: bool,
    runs: u64,
    seed: u64,
}

impl<R: Eprint + AllocGlobal> Onlooker for RunTeller<'_, R> {
    ghost heard = { λ _. None };

    fn begins(&mut self, seed: u64, script: &Script) {
        self.seed = seed;
        if self.tells {
            let rt = self.rt;
            let _told = eprintln!(rt; "seed {seed}");
            if let Ok(text) = write_script(rt.alloc(), script) {
                let _told = eprint!(rt; "{}", str::from_utf8(&text).unwrap_or(""));
            }
        }
    }

    fn ran(&mut self, _seed: u64, _counts: Counts) {
        self.runs = self.runs.saturating_add(1);
    }
}

/// Hunts over the objects that a maker makes, and writes the catch to standard output, or that no
/// run had an error. The command words say in which form the catch is written: that of the smaller
/// book of its witness; with the word `report` the report of its run, and the whole witness after
/// it; with `picture` the picture of the smaller book; with `finding` all of these. After that, the
/// words `seed`, `runs`, `callers`, `calls` and `values`, each with a number after it, change the
/// settings. How many runs were made is written to standard error, with the seed of the last one
/// where its catch was written; with `finding` also the seed and the script of each run before it
/// begins. A call of the object that doesn't return within a second is written there too, while it
/// is under way. With other command words no run is made, and standard output says what is wrong.
pub fn run_hunt<
    R: Env + Print + Eprint + AllocGlobal + Threads + Clock + Copy + Send + Sync + 'static,
    B: BlackBox + Sync + Drop,
    M: Maker<B>,
>(rt: &R, maker: &M, settings: &Settings) -> ExitCode
where
    B::Pass: Send + Drop,
    // The settings' workload fits the texts of scripts, and has a value and an operation to draw.
    requires { IsWorkload settings.now.workload }
{
    ExitCode::from(match command_words(rt) {
        Ok(words) => watch_and_hunt(rt, maker, settings, &words).code(),
        Err(code) => code,
    })
}

// Does what command words ask for, with a watchdog where a thread can be had for it.
fn watch_and_hunt<
    R: Print + Eprint + AllocGlobal + Threads + Clock + Copy + Send + Sync + 'static,
    B: BlackBox + Sync + Drop,
    M: Maker<B>,
>(rt: &R, maker: &M, settings: &Settings, words: &[String]) -> Status
where
    B::Pass: Send + Drop,
    requires { IsWorkload settings.now.workload }
{
    let Ok(underway) = Underway::new(rt.alloc()) else {
        return Status::NoMemory;
    };
    let watchdog = start_watchdog(*rt, &underway);
    let maker = WatchedObjects {
        maker,
        underway: &underway,
        made: AtomicU64::new(0),
    };
    let status = hunt_and_tell(rt, &maker, settings, words);
    underway.end();
    if let Some(watchdog) = watchdog {
        watchdog.join(rt);
    }
    status
}

// Starts the watchdog in a thread, which ends soon after the hunt is over.
fn start_watchdog<R: Eprint + AllocGlobal + Threads + Clock + Copy + Send + 'static>(
    rt: R,
    underway: &Underway,
) -> Option<JoinHandle<()>> {
    let theirs = underway.try_clone().ok()?;
    spawn(&rt, move || {
        let _watched = watch(&rt, rt.alloc(), &theirs);
    })
    .ok()
}

// Does what command words ask for, and tells on standard error how many runs were made.
fn hunt_and_tell<
    R: Print + Eprint + AllocGlobal + Threads + Sync,
    B: BlackBox + Sync + Drop,
    M: Maker<B>,
>(rt: &R, maker: &M, settings: &Settings, words: &[String]) -> Status
where
    B::Pass: Send + Drop,
    requires { IsWorkload settings.now.workload }
{
    let mut sink = StdSink::new(rt);
    let (most, tells) = match Asked::from_words(settings, words) {
        Asked::Hunt(settings, shown) => (settings.runs, shown == Shown::Finding),
        _ => (0, false),
    };
    if tells {
        let _told = eprintln!(rt; "at most {most} runs");
    }
    let mut teller = RunTeller {
        rt,
        tells,
        runs: 0,
        seed: 0,
    };
    let status = hunt_by_words(
        rt,
        rt.alloc(),
        maker,
        settings,
        words,
        &mut teller,
        &mut sink,
    );
    let RunTeller { runs, seed, .. } = teller;
    let _told = match status {
        Status::Usage => Ok(()),
        Status::Found => eprintln!(rt;
            "run {runs} of at most {most} has an error; its seed is {seed}"
        ),
        Status::Fine => eprintln!(rt; "{runs} of {most} runs were made"),
        Status::NoMemory => eprintln!(rt;
            "memory is lacking after {runs} of {most} runs; the last seed is {seed}"
        ),
        _ => eprintln!(rt;
            "not all could be written after {runs} of at most {most} runs; the last seed is {seed}"
        ),
    };
    status
}

// The command words without the program's name, or the code that the program ends with.
fn command_words<R: Env + AllocGlobal>(rt: &R) -> Result<Vec<String>, u8> {
    match env::args(rt) {
        Ok(args) => args
            .skip(1)
            .collect(rt.alloc())
            .map_err(|_| Status::NoMemory.code()),
        Err(fault) if fault.kind() == ErrorKind::OutOfMemory => Err(Status::NoMemory.code()),
        Err(_) => Err(NO_WORDS),
    }
}
