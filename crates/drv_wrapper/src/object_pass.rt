ghost use Rattle.std.specs.Prelude.{◌≡◌, ℕ, List, Option, None};

/// What one caller holds to call an object: whose it is, how many calls it made, and how many it
/// may make.
///
/// A pass may tell the list of its calls, each as an operation and a reply. Then the list has one
/// pair more after each call, and who runs the object learns what it was asked and what it
/// answered. A pass that leaves `told` out tells nothing.
pub trait ObjectPass {
    /// The number of the pass's caller.
    ghost caller: { Self → ℕ };

    /// How many calls were made with the pass.
    ghost made: { Self → ℕ };

    /// How many calls may be made with the pass in all.
    ghost cap: { Self → ℕ };

    /// The operation and the reply of each call that was made with the pass, in order; `None` where
    /// the pass doesn't tell its calls.
    ghost told: { Self → Option (List (ℕ × ℕ)) } = { λ pass. None };

    /// The number of the pass's caller.
    fn caller(&self) -> u32
        ensures { result ≡ caller self.now };

    /// How many calls were made with the pass.
    fn made(&self) -> u64
        ensures { result ≡ made self.now };

    /// How many calls may be made with the pass in all.
    fn cap(&self) -> u64
        ensures { result ≡ cap self.now };
}
