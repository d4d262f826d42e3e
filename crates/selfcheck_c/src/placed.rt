ghost use Rattle.std.specs.Prelude.{◌≡◌, ◌↔◌, ◌≤◌, ◌<◌, IsTrue, drop, length, map, take};
ghost use Rattle.std.specs.List.{AllByRecursion};
ghost use Rattle.book_base.specs.declared.TheConstants.{MAX_CALLERS, MAX_CALLS};
ghost use Rattle.selfcheck_c.specs.Models.{named_call};

use book_base::Call;

/// A call in an order: its caller, and its number among the caller's calls, from 0.
#[repr(C)]
#[derive(Clone, Copy)]
pub struct PlacedCall {
    pub caller: u32,
    pub number: u32,
}

/// Puts calls at the beginning of a buffer, where the buffer can hold them. The answer is whether
/// it can.
pub(crate) fn put_calls(buffer: &mut [PlacedCall], calls: &[Call]) -> bool
    requires { AllByRecursion (λ call. (call.caller < MAX_CALLERS) × (call.number < MAX_CALLS))
        calls.now }
    ensures held { IsTrue result ↔ length calls.now ≤ length buffer.old }
    ensures put { IsTrue result → map named_call (take (length calls.now) buffer.new) ≡ calls.now }
    ensures rest { IsTrue result →
        drop (length calls.now) buffer.new ≡ drop (length calls.now) buffer.old }
    ensures length { length buffer.new ≡ length buffer.old }
    ensures kept { ¬ IsTrue result → buffer.new ≡ buffer.old }
{
    if calls.len() > buffer.len() {
        return false;
    }
    for k in 0..calls.len() {
        let call = calls[k];
        buffer[k] = PlacedCall {
            caller: call.caller,
            number: call.number as u32,
        };
    }
    true
}
