ghost use Rattle.std.specs.Prelude.{◌≡◌, ◌<◌};
ghost use Rattle.std.specs.Arc.{arc_value};
ghost use Rattle.row_table.specs.Callers.{IsCallerOf};
ghost use Rattle.row_gather.specs.Gathered.{IsGatheredBy};
ghost use Rattle.drv_wrapper.specs.States.{caller_announced, announced_local};
ghost use Rattle.announced_calls.specs.Outside.{every_reply};
ghost use Rattle.call_handles.specs.Callers.{IsSoundAt, KeepsStanding, AnswersFor};

use crate::finishing::finish;
use crate::kept::KeptByHandle;
use crate::stage::HandleStage;
use crate::verdict::HandleVerdict;
use drv_wrapper::Announced;
use row_table::Steps;
use std::alloc::Global;
use std::marker::Brand;
use std::sync::ledger::{Blank, Ledger};

// Judges a call whose reply is handed in. The steps are counted by a counter that is made from
// `blank`.
fn judge_counted<L: Ledger>(
    alloc: Global,
    kept: &mut KeptByHandle,
    call: Announced,
    reply: u64,
    blank: Blank,
) -> (HandleStage, HandleVerdict)
    requires blank { (blank.name ≡ L.name) × (blank.parts ≡ L.parts) × (0 < blank.parts) }
    requires rows { IsCallerOf every_reply (arc_value kept.old.rows) (caller_announced call) }
    requires gathered { IsGatheredBy (announced_local call) kept.old.gathered }
    requires stands { KeepsStanding kept.old }
    ensures same { (kept.new.rows ≡ kept.old.rows) × (kept.new.kind ≡ kept.old.kind) }
    ensures sound { IsSoundAt (arc_value kept.old.rows) kept.old.kind kept.new.gathered result.0 }
    ensures stands { KeepsStanding kept.new }
    ensures ended { AnswersFor (arc_value kept.old.rows) kept.old.kind call reply
        result.0 result.1 }
{
    let mut steps = Steps::<L>::new(blank);
    finish(
        alloc,
        &kept.rows,
        call,
        kept.kind,
        reply,
        &mut kept.gathered,
        &mut kept.standing,
        &mut steps,
    )
}

/// Judges a call whose reply is handed in. It answers the stage of the call's caller afterwards,
/// and the answer to the call.
pub(crate) fn judge_alone(
    alloc: Global,
    kept: &mut KeptByHandle,
    call: Announced,
    reply: u64,
) -> (HandleStage, HandleVerdict)
    requires rows { IsCallerOf every_reply (arc_value kept.old.rows) (caller_announced call) }
    requires gathered { IsGatheredBy (announced_local call) kept.old.gathered }
    requires stands { KeepsStanding kept.old }
    ensures same { (kept.new.rows ≡ kept.old.rows) × (kept.new.kind ≡ kept.old.kind) }
    ensures sound { IsSoundAt (arc_value kept.old.rows) kept.old.kind kept.new.gathered result.0 }
    ensures stands { KeepsStanding kept.new }
    ensures ended { AnswersFor (arc_value kept.old.rows) kept.old.kind call reply
        result.0 result.1 }
{
    judge_counted::<Brand>(alloc, kept, call, reply, Blank::new(1))
}
