ghost use Rattle.std.specs.Prelude.{◌≡◌, ◌≤◌, Some, IfOk, All, vec_len};
ghost use Rattle.book_base.specs.declared.TheConstants.{MAX_CALLERS, MAX_CALLS};

use crate::scratch::Scratch;
use book_base::{MAX_CALLERS, MAX_CALLS, NoMemory, OpWord};
use drv_wrapper::ObjectPass;
use shared_words::{Entry, LogSeat, Seated};
use std::alloc::Global;

/// What a pass needs besides its seat: its machine's scratch, and its calls with their replies.
#[derive(Drop)]
pub(crate) struct Tools {
    pub(crate) scratch: Scratch,
    pub(crate) pairs: Vec<(OpWord, u64)>,
}

impl Tools {
    ghost use Rattle.test_objects.specs.Equipment.{AreReady};

    // New tools for each of `n` callers with `cap` calls each.
    pub(crate) fn for_all(alloc: Global, n: u32, cap: u64) -> Result<Vec<Tools>, NoMemory>
        requires some_callers { 1 ≤ n }
        requires few_callers { n ≤ MAX_CALLERS }
        requires some_calls { 1 ≤ cap }
        requires few_calls { cap ≤ MAX_CALLS }
        ensures count { IfOk result (λ all. vec_len all ≡ n) }
        ensures ready { IfOk result (λ all. All (AreReady n cap) all.items) }
    {
        let mut all = Vec::with_capacity(alloc, n as usize)?;
        for _caller in 0..n {
            let scratch = Scratch::new(alloc, n, cap)?;
            let pairs = Vec::with_capacity(alloc, cap as usize)?;
            all.push(Tools { scratch, pairs })?;
        }
        Ok(all)
    }
}

/// What one caller holds to call a box: its seat of the log, its machine's scratch, and its calls
/// with their replies.
pub struct LogPass {
    pub(crate) seat: LogSeat,
    pub(crate) tools: Tools,
}

impl LogPass {
    ghost use Rattle.test_objects.specs.Passes.{pairs_in, log_in};

    /// The caller's calls so far, each as its operation and its reply.
    pub fn pairs(&self) -> &[(OpWord, u64)]
        ensures { result.now ≡ pairs_in self.now }
    {
        &self.tools.pairs
    }

    /// The log up to the caller's last call; it is empty before the first one.
    pub fn log(&self) -> &[Entry]
        ensures { result.now ≡ log_in self.now }
    {
        self.seat.log()
    }
}

impl ObjectPass for LogPass {
    ghost use Rattle.test_objects.specs.Passes.{caller_of_pass, made_with, cap_of_pass, pairs_in};

    ghost caller = { caller_of_pass };

    ghost made = { made_with };

    ghost cap = { cap_of_pass };

    ghost told = { λ pass. Some (pairs_in pass) };

    fn caller(&self) -> u32 {
        self.seat.caller()
    }

    fn made(&self) -> u64 {
        self.seat.made()
    }

    fn cap(&self) -> u64 {
        self.seat.cap()
    }
}

impl Seated for LogPass {
    ghost use Rattle.test_objects.specs.Passes.{seat_in};

    ghost seat = { seat_in };

    fn into_seat(self) -> LogSeat {
        let LogPass { seat, tools: _ } = self;
        seat
    }
}
