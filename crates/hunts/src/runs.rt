//! Hunts.

ghost use Rattle.std.specs.Prelude.{◌≤◌, IfOk};
ghost use Rattle.client_scripts.specs.Drawn.{IsWorkload};
ghost use Rattle.hunts.specs.Hunting.{first_news, IsHunted};
ghost use Rattle.hunts.specs.Watching.{Hears};

use crate::Loudness;
use crate::maker::Maker;
use crate::onlooker::Onlooker;
use crate::trial::{Catch, run_seed};
use book_base::NoMemory;
use client_scripts::Workload;
use drv_wrapper::{BlackBox, ObjectPass};
use std::alloc::Global;
use std::thread::Threads;

/// The settings of a hunt.
#[derive(Clone, Copy, Debug, PartialEq, Eq)]
pub struct Settings {
    /// How the scripts of the runs are drawn.
    pub workload: Workload,
    /// How loud the noise is, in objects that keep it and between the phases of their callers.
    pub loudness: Loudness,
    /// The seed of the first run. The seeds of the other runs follow it, modulo 2^64.
    pub seed: u64,
    /// How many runs are made at most.
    pub runs: u64,
}

/// What a hunt ends with.
#[derive(Debug, Drop)]
pub struct Hunted<T> {
    /// How many runs were made.
    pub runs: u64,
    /// The catch of the last run, where it had an error. Without a catch all runs were made.
    pub caught: Option<Catch<T>>,
}

/// Runs the script of each seed in turn, each over a new object, until the report of a run has a
/// witness, or as many runs are made as the settings say. Callers run in threads of their own where
/// these can be had, with noise between their phases.
///
/// A catch is no matter of chance: its witness has no legal order, so the object is wrong. A hunt
/// without a catch says no more than that no run had an error. A second hunt with the same seed
/// makes the same scripts, but their steps may interleave differently.
pub fn hunt<R: Threads + Sync, B: BlackBox + Sync + Drop, M: Maker<B>, W: Onlooker>(
    rt: &R,
    alloc: Global,
    maker: &M,
    settings: &Settings,
    watch: &mut W,
) -> Result<Hunted<B::Pass>, NoMemory>
where
    B::Pass: Send + Drop,
    // The settings' workload fits the texts of scripts, and has a value and an operation to draw.
    requires { IsWorkload settings.now.workload }
    // A hunt ends with a catch of its last run, after quiet ones; or all its runs were made, and
    // were quiet.
    ensures hunted { IfOk result (λ hunted.
        IsHunted B.Pass.made B.Pass.told settings.now hunted) }
    // The onlooker was told of each run that was made, in order: that it begins, and that it was
    // made.
    ensures heard { IfOk result (λ hunted.
        Hears (W.heard watch.old) (first_news settings.now hunted.runs) (W.heard watch.new)) }
{
    for number in 0..settings.runs {
        let seed = settings.seed.wrapping_add(number);
        if let Some(catch) = run_seed(
            rt,
            alloc,
            maker,
            &settings.workload,
            settings.loudness,
            seed,
            watch,
        )? {
            return Ok(Hunted {
                runs: number + 1,
                caught: Some(catch),
            });
        }
    }
    Ok(Hunted {
        runs: settings.runs,
        caught: None,
    })
}
