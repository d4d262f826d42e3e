ghost use Rattle.std.specs.Prelude.{◌≡◌};
ghost use Rattle.row_table.specs.Callers.{IsCallerOf};
ghost use Rattle.row_gather.specs.Gathered.{IsGatheredBy};
ghost use Rattle.drv_wrapper.specs.States.{caller_announced, announced_local};
ghost use Rattle.enforcer.specs.Verdicts.{OrderStandsIn};
ghost use Rattle.seq_objects.specs.Objects.{kind_spec};
ghost use Rattle.announced_calls.specs.Outside.{every_reply};
ghost use Rattle.call_handles.specs.Callers.{IsSoundAt, AnswersFor};

use crate::stage::{HandleStage, Wrong};
use crate::verdict::HandleVerdict;
use announced_calls::publish_reply;
use book_base::Record;
use drv_wrapper::Announced;
use enforcer::{CallVerdict, Gathered, judge_seen};
use frontier_check::KeptOrder;
use kind_search::SearchedKind;
use row_table::{Rows, Steps};
use seq_objects::Kind;
use std::alloc::Global;
use std::sync::ledger::Ledger;

/// Takes an announced call whose reply is handed in up to its end: publishes it, and judges the
/// book at the cut that its caller has seen since. It answers the stage of the call's caller
/// afterwards, and the answer to the call.
pub(crate) fn finish<L: Ledger>(
    alloc: Global,
    rows: &Rows,
    announced: Announced,
    kind: Kind,
    reply: u64,
    gathered: &mut Option<Gathered>,
    standing: &mut Option<KeptOrder>,
    steps: &mut Steps<L>,
) -> (HandleStage, HandleVerdict)
    requires rows { IsCallerOf every_reply rows.now (caller_announced announced) }
    requires gathered { IsGatheredBy (announced_local announced) gathered.old }
    requires stands { OrderStandsIn (kind_spec kind) gathered.old standing.old }
    ensures sound { IsSoundAt rows.now kind gathered.new result.0 }
    ensures stands { OrderStandsIn (kind_spec kind) gathered.new standing.new }
    ensures ended { AnswersFor rows.now kind announced reply result.0 result.1 }
{
    let seen = publish_reply(rows, announced, reply, steps);
    let (record, cut) = (seen.record(), seen.cut());
    match judge_seen(
        alloc,
        &SearchedKind { kind },
        rows,
        seen,
        gathered,
        standing,
        steps,
    ) {
        Ok((caller, verdict)) => match verdict {
            CallVerdict::Delivered => (HandleStage::Idle(caller), HandleVerdict::Legal),
            CallVerdict::Illegal(book) => {
                let Record { reply, view } = record;
                let wrong = Wrong {
                    caller,
                    reply,
                    view,
                    seen: cut,
                    book,
                };
                (HandleStage::Wrong(wrong), HandleVerdict::Illegal)
            }
        },
        Err(seen) => (HandleStage::Unjudged(seen.stop()), HandleVerdict::Unjudged),
    }
}
