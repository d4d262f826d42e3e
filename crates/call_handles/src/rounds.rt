ghost use Rattle.std.specs.Prelude.{◌≡◌, ◌<◌};
ghost use Rattle.call_handles.specs.Monitors.{IsSoundMonitor, IsOfSameWatch, MayJudge, HasJudged};

use crate::monitor_handle::MonitorHandle;
use crate::verdict::HandleVerdict;
use book_base::NoMemory;
use kind_search::SearchedKind;
use monitor::Round;
use row_table::Steps;
use std::alloc::Global;
use std::marker::Brand;
use std::sync::ledger::{Blank, Ledger};

// Makes a round of a monitor. The steps are counted by a counter that is made from `blank`.
fn round_counted<L: Ledger>(
    alloc: Global,
    handle: &mut MonitorHandle,
    blank: Blank,
) -> HandleVerdict
    requires blank { (blank.name ≡ L.name) × (blank.parts ≡ L.parts) × (0 < blank.parts) }
    requires sound { IsSoundMonitor handle.old }
    requires may { MayJudge handle.old }
    ensures sound { IsSoundMonitor handle.new }
    ensures same { IsOfSameWatch handle.old handle.new }
    ensures judged { HasJudged handle.old result handle.new }
{
    let mut steps = Steps::<L>::new(blank);
    match handle.monitor.round_after(
        alloc,
        &SearchedKind { kind: handle.kind },
        &handle.rows,
        &handle.board,
        &mut handle.standing,
        &mut steps,
    ) {
        Ok(Round::Legal(_)) => HandleVerdict::Legal,
        Ok(Round::Illegal(_)) => HandleVerdict::Illegal,
        Err(NoMemory) => HandleVerdict::Unjudged,
    }
}

/// Makes a round of a monitor that has found no witness.
pub(crate) fn round_alone(alloc: Global, handle: &mut MonitorHandle) -> HandleVerdict
    requires sound { IsSoundMonitor handle.old }
    requires may { MayJudge handle.old }
    ensures sound { IsSoundMonitor handle.new }
    ensures same { IsOfSameWatch handle.old handle.new }
    ensures judged { HasJudged handle.old result handle.new }
{
    round_counted::<Brand>(alloc, handle, Blank::new(1))
}
