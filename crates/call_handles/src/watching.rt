ghost use Rattle.std.specs.Prelude.{◌≡◌, ◌↔◌, IsTrue, IsSome, IfOk, IfErr, IsOk, Some, is_some};
ghost use Rattle.call_handles.specs.Callers.{IsSoundCaller, IsBetweenCalls};
ghost use Rattle.call_handles.specs.Handles.{IsSound};
ghost use Rattle.call_handles.specs.Monitors.{IsSoundMonitor, IsMonitorFrom};
ghost use Rattle.call_handles.specs.Slots.{handle_in, IsCallers, BecomesMonitor};

use crate::Handle;
use crate::caller_handle::CallerHandle;
use crate::kept::KeptByHandle;
use crate::monitor_handle::MonitorHandle;
use crate::slot::Slot;
use crate::stage::HandleStage;
use core::mem::replace_with;
use std::alloc::Global;

// A monitor of a caller that is between two calls; else the handle as it was.
fn monitor_of(alloc: Global, handle: CallerHandle) -> Result<MonitorHandle, CallerHandle>
    requires sound { IsSoundCaller handle }
    ensures when { IsOk result ↔ IsBetweenCalls handle }
    ensures sound { IfOk result IsSoundMonitor }
    ensures monitor { IfOk result (IsMonitorFrom handle) }
    ensures unchanged { IfErr result (λ kept. kept ≡ handle) }
{
    let CallerHandle { kept, stage } = handle;
    match stage {
        HandleStage::Idle(caller) => {
            let KeptByHandle {
                rows,
                kind,
                gathered: _,
                standing: _,
            } = kept;
            Ok(MonitorHandle::new(alloc, rows, kind, caller))
        }
        stage => Err(CallerHandle { kept, stage }),
    }
}

// The handle of a monitor, where the handle is that of a caller between two calls, and whether it is.
fn watching_by(handle: Handle, alloc: Global) -> (Handle, bool)
    requires sound { IsSound handle }
    ensures sound { IsSound result.0 }
    ensures when { IsTrue result.1 ↔ IsCallers IsBetweenCalls (Some handle) }
    ensures watching { IsTrue result.1 → BecomesMonitor (Some handle) (Some result.0) }
    ensures unchanged { ¬ IsTrue result.1 → result.0 ≡ handle }
{
    match handle {
        Handle::Caller(caller) => match monitor_of(alloc, caller) {
            Ok(monitor) => (Handle::Monitor(monitor), true),
            Err(caller) => (Handle::Caller(caller), false),
        },
        handle => (handle, false),
    }
}

fn watching_in(slot: Slot, alloc: Global) -> (Slot, bool)
    requires taken { IsTrue (is_some (handle_in slot)) }
    ensures when { IsTrue result.1 ↔ IsCallers IsBetweenCalls (handle_in slot) }
    ensures watching { IsTrue result.1 → BecomesMonitor (handle_in slot) (handle_in result.0) }
    ensures unchanged { ¬ IsTrue result.1 → handle_in result.0 ≡ handle_in slot }
{
    let (mut handle, _) = slot.take(alloc);
    let watching = replace_with(&mut *handle, alloc, watching_by);
    (Slot::of(handle), watching)
}

/// Makes the caller whose handle is in the slot a monitor of its table, where it is between two
/// calls. The answer is whether it did; where it didn't, the handle is as it was.
pub fn watch(alloc: Global, slot: &mut Slot) -> bool
    // The answer is true exactly where the slot has a caller that is between two calls.
    ensures when { IsTrue result ↔ IsCallers IsBetweenCalls (handle_in slot.old) }
    // With true the slot has this caller as a monitor of the same table and kind, which has made no
    // round.
    ensures watching { IsTrue result → BecomesMonitor (handle_in slot.old) (handle_in slot.new) }
    // With false the handle is as it was.
    ensures unchanged { ¬ IsTrue result → handle_in slot.new ≡ handle_in slot.old }
{
    if !slot.is_taken() {
        return false;
    }
    replace_with(slot, alloc, watching_in)
}
