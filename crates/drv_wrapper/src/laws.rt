//! What a pass tells of its calls. The law is the contract of a function with nothing in it.

ghost use Rattle.std.specs.Prelude.{◌≡◌, ℕ, List, [], ◌∷◌, ◌++◌, Some, None};
ghost use Rattle.drv_wrapper.specs.Telling.{told_after};

/// A pass that tells its calls tells each as its operation and then its reply, and the latest call
/// at the end. A pass that tells none tells none after a further call either.
pub fn passes_tell_operations_and_replies()
    // After its first call, of the operation 5 with the reply 50, a pass tells this pair alone.
    ensures first { told_after 5 50 (Some []) ≡ Some ((5, 50) ∷ []) }
    // After a further call, of the operation 7 with the reply 4, it tells that pair too, as the
    // last one.
    ensures second { told_after 7 4 (Some ((5, 50) ∷ [])) ≡ Some ((5, 50) ∷ (7, 4) ∷ []) }
    // After any call a pass that tells its calls has one pair more than before, the call's
    // operation with its reply.
    ensures each { (operation reply : ℕ) (pairs : List (ℕ × ℕ))
        → told_after operation reply (Some pairs) ≡ Some (pairs ++ (operation, reply) ∷ []) }
    // A pass that tells no calls tells none after one more.
    ensures none { (operation reply : ℕ) → told_after operation reply None ≡ None }
{}
