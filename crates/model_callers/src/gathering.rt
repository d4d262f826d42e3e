ghost use Rattle.std.specs.Prelude.{◌≡◌, ◌<◌, IfOk, IfErr};
ghost use Rattle.row_table.specs.Callers.{IsCallerOf};
ghost use Rattle.row_gather.specs.Gathered.{IsGatheredBy};
ghost use Rattle.drv_wrapper.specs.States.{caller_announced, announced_local};
ghost use Rattle.announced_calls.specs.Outside.{every_reply};
ghost use Rattle.model_callers.specs.Callers.{IsPublishedCall, IsLeftUnjudged};

use crate::gathered_call::GatheredCall;
use announced_calls::publish_reply;
use book_base::NoMemory;
use drv_wrapper::Announced;
use enforcer::gather;
use row_gather::Gathered;
use row_table::{Caller, Rows, Steps};
use std::alloc::Global;
use std::marker::Brand;
use std::sync::ledger::{Blank, Ledger};

// Publishes an announced call whose reply is handed in, and gathers the book at the cut that its
// caller has seen since. Where memory is lacking, the answer is the caller, halted. The steps are
// counted by a counter that is made from `blank`.
fn gather_counted<L: Ledger>(
    alloc: Global,
    rows: &Rows,
    call: Announced,
    reply: u64,
    gathered: Option<Gathered>,
    blank: Blank,
) -> Result<GatheredCall, Caller>
    requires blank { (blank.name ≡ L.name) × (blank.parts ≡ L.parts) × (0 < blank.parts) }
    requires rows { IsCallerOf every_reply rows.now (caller_announced call) }
    requires gathered { IsGatheredBy (announced_local call) gathered }
    ensures published { IfOk result (IsPublishedCall rows.now call reply) }
    ensures unjudged { IfErr result (IsLeftUnjudged rows.now call reply) }
    ensures caller { IfErr result (IsCallerOf every_reply rows.now) }
{
    let mut steps = Steps::<L>::new(blank);
    let mut seen = publish_reply(rows, call, reply, &mut steps);
    let record = seen.record();
    match gather(alloc, rows, &mut seen, gathered, &mut steps) {
        Ok(gathered) => Ok(GatheredCall {
            caller: seen.defer(),
            record,
            gathered,
        }),
        Err(NoMemory) => Err(seen.stop()),
    }
}

/// Publishes an announced call whose reply is handed in, and gathers the book at the cut that its
/// caller has seen since, from the one that it has gathered before. Where memory is lacking, the
/// answer is the caller, halted, and nobody judges the call.
pub(crate) fn publish_gathered(
    alloc: Global,
    rows: &Rows,
    call: Announced,
    reply: u64,
    gathered: Option<Gathered>,
) -> Result<GatheredCall, Caller>
    requires rows { IsCallerOf every_reply rows.now (caller_announced call) }
    requires gathered { IsGatheredBy (announced_local call) gathered }
    ensures published { IfOk result (IsPublishedCall rows.now call reply) }
    ensures unjudged { IfErr result (IsLeftUnjudged rows.now call reply) }
    ensures caller { IfErr result (IsCallerOf every_reply rows.now) }
{
    gather_counted::<Brand>(alloc, rows, call, reply, gathered, Blank::new(1))
}
