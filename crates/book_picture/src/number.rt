ghost use Rattle.std.specs.Prelude.{◌≡◌, ℕ, ◌+◌, IfSome, IfNone};
ghost use Rattle.book_base.specs.Order.{StandsAt};

use book_base::{Call, Place};

/// The number of a call in an order, counted from 1, where the call is in it.
pub(crate) fn number_in(order: &[Place], call: Call) -> Option<usize>
    ensures found { IfSome result
        (λ number. (k : ℕ) × (number ≡ k + 1) × StandsAt order.now k call) }
    ensures none { IfNone result ((k : ℕ) → ¬ (StandsAt order.now k call)) }
{
    for (k, place) in order.iter().enumerate() {
        if place.caller == call.caller && place.number == call.number {
            return Some(k + 1);
        }
    }
    None
}
