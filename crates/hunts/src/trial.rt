//! A run of the script of a seed, and whether it shows an error.

ghost use Rattle.std.specs.Prelude.{IfOk, IfSome, IfNone, OnOk};
ghost use Rattle.client_scripts.specs.Drawn.{IsWorkload};
ghost use Rattle.hunts.specs.Hunting.{IsCaught, IsQuiet, news_of};
ghost use Rattle.hunts.specs.Watching.{Hears};

use crate::maker::Maker;
use crate::once::run_once;
use crate::onlooker::Onlooker;
use crate::{Loudness, Noise};
use book_base::{Book, NoMemory};
use client_scripts::{Script, Workload, random_script};
use drv_wrapper::{BlackBox, ObjectPass};
use reports::Report;
use std::alloc::Global;
use std::thread::Threads;

/// What a hunt catches: a run that shows a book without a legal order.
#[derive(Debug, Drop)]
pub struct Catch<T> {
    /// The seed of the script, and of the noise.
    pub seed: u64,
    /// What the callers were to do in the run.
    pub script: Script,
    /// The report of the run, which has an error line.
    pub report: Report,
    /// The book at the seen cut of the first error line.
    pub witness: Book,
    /// The passes with which the callers asked the object, in order.
    pub passes: Vec<T>,
}

/// Runs the script of a seed over an object made for it, which is dropped after the run. The answer
/// is a catch where the report has an error line, and else `None`.
pub(crate) fn run_seed<R: Threads + Sync, B: BlackBox + Sync + Drop, M: Maker<B>, W: Onlooker>(
    rt: &R,
    alloc: Global,
    maker: &M,
    workload: &Workload,
    loudness: Loudness,
    seed: u64,
    watch: &mut W,
) -> Result<Option<Catch<B::Pass>>, NoMemory>
where
    B::Pass: Send + Drop,
    requires { IsWorkload workload.now }
    ensures caught { IfOk result (λ found. IfSome found
        (IsCaught B.Pass.made B.Pass.told workload.now seed)) }
    ensures quiet { IfOk result (λ found. IfNone found
        (IsQuiet B.Pass.made B.Pass.told workload.now seed)) }
    ensures heard { OnOk result (Hears (W.heard watch.old) (news_of workload.now seed)
        (W.heard watch.new)) }
{
    let script = random_script(alloc, workload, seed)?;
    watch.begins(seed, &script);
    let within = Noise::new(alloc, seed, loudness)?;
    let between = Noise::new(alloc, seed.wrapping_add(1), loudness)?;
    let (object, mut passes) = maker.open(alloc, &script, within)?;
    let report = run_once(rt, alloc, &object, &mut passes, &script, &between)?;
    watch.ran(seed, report.counts());
    match report.witness(alloc)? {
        Some(witness) => Ok(Some(Catch {
            seed,
            script,
            report,
            witness,
            passes,
        })),
        None => Ok(None),
    }
}
