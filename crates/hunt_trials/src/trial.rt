//! One hunt over the objects of a maker.

ghost use Rattle.std.specs.Prelude.{◌≤◌};
ghost use Rattle.text_fields.specs.declared.TheConstants.{TEXT_CALLERS, TEXT_CALLS};

use book_base::{Book, NoMemory};
use client_scripts::{Script, Weights, Workload};
use drv_wrapper::BlackBox;
use hunts::{Loudness, Maker, Settings, Unwatched, hunt};
use seq_objects::Kind;
use smaller_book::shrink;
use std::alloc::Global;
use std::fmt::{self, Display, Formatter};
use std::thread::Threads;

/// How large a hunt is: the seed of its first run, how many runs it makes at most, how many callers
/// each run has, how many calls each caller makes, and how loud the noise is.
#[derive(Clone, Copy)]
pub(crate) struct Size {
    pub(crate) seed: u64,
    pub(crate) runs: u64,
    pub(crate) callers: u32,
    pub(crate) calls: u64,
    pub(crate) loudness: Loudness,
    ghost some: { 1 ≤ callers },
    ghost few: { callers ≤ TEXT_CALLERS },
    ghost within: { calls ≤ TEXT_CALLS },
}

/// How many runs a hunt made, and how many calls the witness has that it caught, if any.
#[derive(Clone, Copy)]
pub(crate) struct HuntFindings {
    runs: u64,
    caught: Option<Calls>,
}

/// How many calls a witness has, and how many calls the smaller book has that is made of it.
#[derive(Clone, Copy)]
struct Calls {
    witness: u64,
    smaller: u64,
}

impl HuntFindings {
    /// Whether the hunt has caught something.
    pub(crate) fn is_caught(&self) -> bool {
        self.caught.is_some()
    }
}

impl Display for HuntFindings {
    fn fmt<W: fmt::Write>(&self, f: &mut Formatter<W>) -> fmt::Result {
        match self.caught {
            Some(calls) => {
                let Calls { witness, smaller } = calls;
                write!(
                    f,
                    "caught by run {} witness {witness} smaller {smaller}",
                    self.runs
                )
            }
            None => write!(f, "quiet in {} runs", self.runs),
        }
    }
}

/// How many calls the callers of a script make.
pub(crate) fn calls_of_script(script: &Script) -> u64 {
    let mut count = 0u64;
    for caller in 0..script.callers() {
        count = count.saturating_add(script.calls(caller));
    }
    count
}

// How many calls a book has.
fn calls_of(book: &Book) -> u64 {
    let mut count = 0u64;
    for caller in 0..book.callers() {
        count = count.saturating_add(book.calls(caller));
    }
    count
}

/// Hunts over the objects of a kind that a maker makes.
pub(crate) fn hunt_over_kind<R: Threads + Sync, B: BlackBox + Sync + Drop, M: Maker<B>>(
    rt: &R,
    alloc: Global,
    maker: &M,
    kind: Kind,
    size: Size,
) -> Result<HuntFindings, NoMemory>
where
    B::Pass: Send + Drop,
{
    let settings = Settings {
        workload: Workload {
            kind,
            callers: size.callers,
            calls: size.calls,
            values: 4,
            weights: Weights {
                first: 1,
                second: 1,
                third: 1,
            },
        },
        loudness: size.loudness,
        seed: size.seed,
        runs: size.runs,
    };
    let hunted = hunt(rt, alloc, maker, &settings, &mut Unwatched)?;
    let caught = match &hunted.caught {
        Some(catch) => calls_in(alloc, kind, &catch.witness)?,
        None => None,
    };
    Ok(HuntFindings {
        runs: hunted.runs,
        caught,
    })
}

// How many calls an illegal book has, and how many are left where it is made small; `None` for a
// legal book.
fn calls_in(alloc: Global, kind: Kind, witness: &Book) -> Result<Option<Calls>, NoMemory> {
    Ok(match shrink(alloc, kind, witness)? {
        Some(smaller) => Some(Calls {
            witness: calls_of(witness),
            smaller: calls_of(&smaller.book),
        }),
        None => None,
    })
}
