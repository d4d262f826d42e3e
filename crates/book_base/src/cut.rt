ghost use Rattle.std.specs.Prelude.{◌≡◌, ℕ, ◌+◌, ◌-◌, ◌<◌, ◌≤◌, ◌↔◌, List, length, max, replicate, slice_index, slice_set, IsTrue};
ghost use Rattle.book_base.specs.Cut.{Holds, IsWithin};
ghost use Rattle.book_base.specs.declared.TheConstants.{MAX_CALLERS};

use crate::MAX_CALLERS;
use std::marker::Model;

/// A cut: one count of calls for each of `n` callers.
///
/// It holds call `k` of caller `i` exactly where `k` is below its count for `i`. Clauses see it as
/// the list of its counts.
#[derive(Debug)]
pub struct Cut {
    n: u32,
    at: [u64; MAX_CALLERS],
}

impl Model for Cut {
    ghost use Rattle.std.specs.Prelude.{◌≡◌, ℕ, ◌-◌, ◌++◌, ◌≤◌, List, length, take, replicate};
    ghost use Rattle.book_base.specs.declared.TheConstants.{MAX_CALLERS};

    ghost Value = { List ℕ };

    ghost use Rattle.book_base.specs.CutLayout.{counts_of, IsPadded, padded, counts_of-inverse};

    ghost view = { counts_of };

    ghost invariant = { IsPadded };

    ghost inverse = { padded };

    ghost inverse_ok = { counts_of-inverse };
}

impl Clone for Cut {
    ghost use Rattle.std.specs.Prelude.{◌≡◌, ⊤};

    ghost is_clone = { λ cut copy. copy ≡ cut };

    ghost is_infallible = { λ _. ⊤ };

    fn clone(&self) -> Result<Self, std::alloc::AllocError> {
        Ok(*self)
    }
}

impl Copy for Cut {}

impl Cut {
    /// The cut of `n` callers that holds no call.
    pub fn zero(n: u32) -> Cut
        // There is at least one caller.
        requires some { 1 ≤ n }
        // There are at most `MAX_CALLERS` callers.
        requires few { n ≤ MAX_CALLERS }
        ensures { result ≡ replicate n 0 }
    {
        Cut {
            n,
            at: [0; MAX_CALLERS],
        }
    }

    /// The number of callers.
    pub fn n(&self) -> u32
        // The answer is how many counts the cut has.
        ensures count { result ≡ length self.now }
        // The cut has at least one count.
        ensures some { 1 ≤ length self.now }
        // The cut has at most `MAX_CALLERS` counts.
        ensures few { length self.now ≤ MAX_CALLERS }
    {
        self.n
    }

    /// The count for a caller.
    pub fn get(&self, i: u32) -> u64
        // The cut has a count for this caller.
        requires { i < length self.now }
        ensures { result ≡ slice_index self.now i }
    {
        self.at[i as usize]
    }

    /// Sets the count for a caller, and changes no other count.
    pub fn set(&mut self, i: u32, count: u64)
        // The cut has a count for this caller.
        requires { i < length self.old }
        ensures { self.new ≡ slice_set self.old i count }
    {
        self.at[i as usize] = count;
    }

    /// Raises each count to the other cut's, where that is greater.
    pub fn raise(&mut self, other: &Cut)
        // The cuts have equally many counts.
        requires { length other.now ≡ length self.old }
        // The cut has as many counts as before.
        ensures wide { length self.new ≡ length self.old }
        // Each count is the greater one of the count before and the other cut's count.
        ensures counts { (i : ℕ) → slice_index self.new i
            ≡ max (slice_index self.old i) (slice_index other.now i) }
    {
        for caller in 0..self.n() {
            self.set(caller, self.get(caller).max(other.get(caller)));
        }
    }

    /// All counts, by caller.
    pub fn counts(&self) -> &[u64]
        ensures { result.now ≡ self.now }
    {
        &self.at[..self.n as usize]
    }

    /// Whether the cut holds the call with this number of this caller.
    pub fn holds(&self, caller: u32, number: u64) -> bool
        // The cut has a count for this caller.
        requires { caller < length self.now }
        ensures { IsTrue result ↔ Holds self.now (record { caller = caller; number = number }) }
    {
        number < self.at[caller as usize]
    }

    /// Whether no count is greater than the other cut's.
    pub fn within(&self, other: &Cut) -> bool
        // The cuts have equally many counts.
        requires { length self.now ≡ length other.now }
        ensures { IsTrue result ↔ IsWithin self.now other.now }
    {
        for i in 0..self.n as usize {
            if self.at[i] > other.at[i] {
                return false;
            }
        }
        true
    }

    /// Whether all counts are the other cut's.
    pub fn equals(&self, other: &Cut) -> bool
        // The cuts have equally many counts.
        requires { length self.now ≡ length other.now }
        ensures { IsTrue result ↔ (self.now ≡ other.now) }
    {
        self.at == other.at
    }
}
