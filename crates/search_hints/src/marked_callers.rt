ghost use Rattle.std.specs.Prelude.{◌≡◌, ℕ, ◌<◌, ◌≢◌, ◌⊎◌, IsTrue, ◌↔◌};
ghost use Rattle.book_base.specs.declared.TheConstants.{MAX_CALLERS};
ghost use Rattle.search_hints.specs.Marks.{IsMarked};

use book_base::MAX_CALLERS;

/// Marks on callers: those whose next calls a search is still to try.
#[derive(Clone, Copy, Debug)]
pub struct MarkedCallers {
    pub callers: [bool; MAX_CALLERS],
}

impl MarkedCallers {
    /// Marks on no caller.
    pub fn none() -> MarkedCallers
        // The answer marks no caller.
        ensures none { (i : ℕ) → IsMarked result i → ⊥ }
    {
        MarkedCallers {
            callers: [false; MAX_CALLERS],
        }
    }

    /// The mark on one caller alone.
    pub fn only(caller: u32) -> MarkedCallers
        // The caller is below `MAX_CALLERS`.
        requires { caller < MAX_CALLERS }
        // The answer marks this caller, and no other one.
        ensures { (i : ℕ) → IsMarked result i ↔ (i ≡ caller) }
    {
        MarkedCallers::none().with(caller)
    }

    /// These marks with one more, on this caller.
    pub fn with(self, caller: u32) -> MarkedCallers
        // The caller is below `MAX_CALLERS`.
        requires { caller < MAX_CALLERS }
        // The answer marks this caller, those that were marked, and no other one.
        ensures { (i : ℕ) → IsMarked result i ↔ ((i ≡ caller) ⊎ IsMarked self i) }
    {
        let mut marks = self;
        marks.callers[caller as usize] = true;
        marks
    }

    /// These marks without the one on this caller.
    pub fn without(self, caller: u32) -> MarkedCallers
        // The caller is below `MAX_CALLERS`.
        requires { caller < MAX_CALLERS }
        // The answer marks those that were marked but for this caller.
        ensures { (i : ℕ) → IsMarked result i ↔ ((i ≢ caller) × IsMarked self i) }
    {
        let mut marks = self;
        marks.callers[caller as usize] = false;
        marks
    }

    /// Whether a caller is marked.
    pub fn has(&self, caller: u32) -> bool
        ensures { IsTrue result ↔ IsMarked self.now caller }
    {
        (caller as usize) < MAX_CALLERS && self.callers[caller as usize]
    }
}
