//! A hunt, and what is written of it.

ghost use Rattle.std.specs.Prelude.{ℕ, map, string_bytes, IfOk};
ghost use Rattle.client_scripts.specs.Drawn.{IsWorkload};
ghost use Rattle.byte_streams.specs.Fault.{LeavesSink};
ghost use Rattle.hunts.specs.Hunting.{first_news};
ghost use Rattle.hunts.specs.Watching.{Hears};
ghost use Rattle.hunts.specs.declared.asked.Asked.{Asked as TheAsked};
ghost use Rattle.hunts.specs.Asking.{IsAsked};
ghost use Rattle.hunts.specs.Caught.{IsHuntOutput, EndsHunt, EndsAsked};

use crate::asked::Asked;
use crate::caught::caught_text;
use crate::shown::Shown;
use crate::{Maker, Onlooker, Settings, hunt};
use book_base::NoMemory;
use byte_streams::{Sink, Status, write_text};
use drv_wrapper::{BlackBox, ObjectPass};
use std::alloc::Global;
use std::thread::Threads;

/// What is written where command words ask for nothing.
const USAGE: &[u8] =
    b"usage: [report | picture | finding] [seed N] [runs N] [callers N] [calls N] [values N]\n";

/// What is written of a hunt that caught nothing.
const NOTHING: &[u8] = b"no run had an error\n";

// A text, and the status that comes with it.
#[derive(Drop)]
struct Output {
    status: Status,
    text: Vec<u8>,
}

/// Hunts over the objects that a maker makes, and writes what is to be shown of the catch, or that
/// no run had an error.
pub fn hunt_and_write<
    R: Threads + Sync,
    B: BlackBox + Sync + Drop,
    M: Maker<B>,
    W: Onlooker,
    K: Sink,
>(
    rt: &R,
    alloc: Global,
    maker: &M,
    settings: &Settings,
    shown: Shown,
    watch: &mut W,
    sink: &mut K,
) -> Status
where
    B::Pass: Send + Drop,
    // The settings' workload fits the texts of scripts, and has a value and an operation to draw.
    requires { IsWorkload settings.now.workload }

    // With `Found` the last run is the first that has an error, and what is shown of its catch was
    // written; its witness has no legal order. With `Fine` all runs of the settings were made, and
    // it was written that none has an error. With `WriteFault` only some first bytes of one of
    // these outputs were written, and with `NoMemory` nothing. Unless memory was wanted, at most as
    // many runs were made as the settings say, and the onlooker was told of each run, in order:
    // that it begins, and that it was made.
    ensures ends { EndsHunt B.Pass.made B.Pass.told settings.now shown result
        (K.taken sink.old) (K.taken sink.new) (W.heard watch.old) (W.heard watch.new) }

    // With `WriteFault` the sink's count of faults rose in this call, and with each other status
    // it stayed. With `NoMemory` the sink is as it was.
    ensures faults { LeavesSink K.faults result sink.old sink.new }
{
    match hunted_output(rt, alloc, maker, settings, shown, watch) {
        Ok(output) => write_text(sink, output.status, &output.text),
        Err(NoMemory) => Status::NoMemory,
    }
}

/// Does what command words ask for, where the settings are `usual` unless words change them: hunts
/// over the objects that a maker makes, and writes what is to be shown of the catch, or that no run
/// had an error. Where a setting goes out of its bounds, or the words ask for nothing else, no run
/// is made, and that is written.
pub fn hunt_by_words<
    R: Threads + Sync,
    B: BlackBox + Sync + Drop,
    M: Maker<B>,
    W: Onlooker,
    K: Sink,
>(
    rt: &R,
    alloc: Global,
    maker: &M,
    usual: &Settings,
    words: &[String],
    watch: &mut W,
    sink: &mut K,
) -> Status
where
    B::Pass: Send + Drop,
    // The usual settings' workload fits the texts of scripts, and has a value and an operation to
    // draw.
    requires { IsWorkload usual.now.workload }

    // What the words ask for has ended with the status: the hunt with the settings to which the
    // words change the usual ones, as `hunt_and_write` says; or the text of the bounds or the usage
    // was written, and no run was made.
    ensures ends { (asked : TheAsked) × IsAsked usual.now (map string_bytes words.now) asked
        × EndsAsked B.Pass.made B.Pass.told asked result (K.taken sink.old) (K.taken sink.new)
        (W.heard watch.old) (W.heard watch.new) }

    // With `WriteFault` the sink's count of faults rose in this call, and with each other status
    // it stayed. With `NoMemory` the sink is as it was.
    ensures faults { LeavesSink K.faults result sink.old sink.new }
{
    match Asked::from_words(usual, words) {
        Asked::Hunt(settings, shown) => {
            hunt_and_write(rt, alloc, maker, &settings, shown, watch, sink)
        }
        Asked::OutOfBounds(setting) => write_text(sink, Status::Usage, setting.bounds()),
        Asked::Unknown => write_text(sink, Status::Usage, USAGE),
    }
}

// Makes a hunt, and answers the text of what is to be shown, with its status.
fn hunted_output<R: Threads + Sync, B: BlackBox + Sync + Drop, M: Maker<B>, W: Onlooker>(
    rt: &R,
    alloc: Global,
    maker: &M,
    settings: &Settings,
    shown: Shown,
    watch: &mut W,
) -> Result<Output, NoMemory>
where
    B::Pass: Send + Drop,
    requires { IsWorkload settings.now.workload }
    ensures { IfOk result (λ output. (runs : ℕ)
        × IsHuntOutput B.Pass.made B.Pass.told settings.now shown runs
        output.status output.text.items
        × Hears (W.heard watch.old) (first_news settings.now runs) (W.heard watch.new)) }
{
    match hunt(rt, alloc, maker, settings, watch)?.caught {
        Some(catch) => Ok(Output {
            status: Status::Found,
            text: caught_text(alloc, settings.workload.kind, shown, &catch)?,
        }),
        None => Ok(Output {
            status: Status::Fine,
            text: NOTHING.to_vec(alloc)?,
        }),
    }
}
