ghost use Rattle.std.specs.Prelude.{◌≡◌, false, slice_get, Some, IfSome, IfNone};
ghost use Rattle.late_residue.specs.declared.open_call.OpenCall.{OpenCall};
ghost use Rattle.late_residue.specs.Reached.{Has};

use late_residue::OpenCall;

/// The index of the pending call of a process among open calls.
pub fn pending(calls: &[OpenCall], process: u64) -> Option<usize>
    ensures some { IfSome result (λ at. (one : OpenCall) × (slice_get calls.now at ≡ Some one)
        × (one.process ≡ process) × (one.is_lost ≡ false)) }
    ensures none { IfNone result ((one : OpenCall) → Has calls.now one → one.process ≡ process
        → one.is_lost ≡ false → ⊥) }
{
    for at in 0..calls.len() {
        if calls[at].process == process && !calls[at].is_lost {
            return Some(at);
        }
    }
    None
}
