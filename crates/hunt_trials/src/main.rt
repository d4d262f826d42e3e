//! Hunts over objects that are wrong on purpose, and over right ones.
//!
//! The words `OBJECT SEED RUNS CALLERS CALLS SHARE MOST` ask for one hunt, and a line is printed of
//! it. Without words there is a short hunt over each object, whose line doesn't depend on the
//! schedule.
#![tactic(auto)]

mod counter;
mod locked;
mod queues;
mod ring;
mod stack;
mod trial;
mod trials;

use anyhow::{Context, Result, bail};
use hunts::Loudness;
use std::env;
use std::process::ExitCode;
use std::rt::Env;
use std::thread::Threads;
use text_fields::{TEXT_CALLERS, TEXT_CALLS};
use trial::Size;
use trials::{RIGHT, WRONG, hunt_over};

// How many runs a short hunt over a wrong object makes at most.
const MOST: u64 = 100_000;

const FEW: u64 = 5;

// The noise of short hunts.
const LOUDNESS: Loudness = Loudness { share: 32, most: 2 };

// The size of a hunt, by the command words after the object's name.
fn size_of(words: &[String]) -> Result<Size> {
    let [seed, runs, callers, calls, share, most] = words else {
        bail!("the words are OBJECT SEED RUNS CALLERS CALLS SHARE MOST");
    };
    let callers = callers.parse::<u32>().context("how many callers")?;
    let calls = calls.parse::<u64>().context("how many calls")?;
    if callers == 0 || u64::from(callers) > TEXT_CALLERS || calls > TEXT_CALLS {
        bail!("there are 1 to 16 callers, with 256 calls each at the most");
    }
    Ok(Size {
        seed: seed.parse().context("a seed")?,
        runs: runs.parse().context("a number of runs")?,
        callers,
        calls,
        loudness: Loudness {
            share: share.parse().context("a share of pauses")?,
            most: most.parse().context("how many times a pause yields")?,
        },
    })
}

// Makes one hunt over the object with this name, of the size that the words say, and prints a line
// of it.
fn hunt_by_words<R: Print + AllocGlobal + Threads + Sync>(
    rt: &R,
    name: &str,
    words: &[String],
) -> Result<()> {
    let found = hunt_over(rt, rt.alloc(), name, size_of(words)?)?.context("no such object")?;
    println!(rt; "{name} {found}")?;
    Ok(())
}

// Makes a short hunt over each object of these names.
fn hunt_over_all<R: Print + AllocGlobal + Threads + Sync>(
    rt: &R,
    names: &[&str],
    runs: u64,
) -> Result<()> {
    for name in names {
        let size = Size {
            seed: 0,
            runs,
            callers: 3,
            calls: 4,
            loudness: LOUDNESS,
        };
        let found = hunt_over(rt, rt.alloc(), name, size)?.context("no such object")?;
        println!(rt; "{name}: caught {}", found.is_caught())?;
    }
    Ok(())
}

fn run<R: Env + Print + AllocGlobal + Threads + Sync>(rt: &R) -> Result<()> {
    let words: Vec<String> = env::args(rt)?.skip(1).collect(rt.alloc())?;
    match words.as_slice() {
        [] => {
            hunt_over_all(rt, &WRONG, MOST)?;
            hunt_over_all(rt, &RIGHT, FEW)
        }
        [name, rest @ ..] => hunt_by_words(rt, name, rest),
    }
}

fn main(rt: HostRuntime) -> ExitCode {
    match run(&rt) {
        Ok(()) => ExitCode::SUCCESS,
        Err(error) => {
            let _told = eprintln!(rt; "{error:#}");
            ExitCode::FAILURE
        }
    }
}
