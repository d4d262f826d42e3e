ghost use Rattle.std.specs.Prelude.{◌≡◌, ◌+◌, ◌<◌, IfOk};
ghost use Rattle.run_report.specs.Passes.{AreUnusedPasses};

use book_base::NoMemory;
use client_scripts::Script;
use drv_wrapper::ObjectPass;
use std::alloc::Global;

/// What one caller holds to call an object that needs nothing more of a pass: whose it is, how many
/// calls were made with it, and how many may be made in all. It tells no list of its calls.
#[derive(Debug, Drop)]
pub struct CountingPass {
    caller: u32,
    made: u64,
    cap: u64,
}

impl CountingPass {
    ghost use Rattle.hunts.specs.Passes.{caller_of, made_with, cap_of, any_pass};

    /// A caller's pass with which no call was made yet, and at most `cap` calls may be made.
    pub fn new(caller: u32, cap: u64) -> CountingPass
        // The pass is this caller's.
        ensures caller { caller_of result ≡ caller }
        // The pass has made no call.
        ensures none { made_with result ≡ 0 }
        // The pass may make `cap` calls.
        ensures cap { cap_of result ≡ cap }
    {
        CountingPass {
            caller,
            made: 0,
            cap,
        }
    }

    /// A pass for each caller of a script, in order, for as many calls as the script gives it.
    pub fn for_script(alloc: Global, script: &Script) -> Result<Vec<CountingPass>, NoMemory>
        // There is an unused pass for each caller of the script, in order, with which one call may
        // be made for each operation of its caller.
        ensures unused { IfOk result (λ passes. AreUnusedPasses any_pass caller_of made_with cap_of
            script.now.operations passes.items) }
    {
        let mut passes = Vec::new(alloc);
        for caller in 0..script.callers() {
            passes.push(CountingPass::new(caller, script.calls(caller)))?;
        }
        Ok(passes)
    }

    /// Counts one call more.
    pub fn count(&mut self)
        // The pass has made fewer calls than it may make.
        requires left { made_with self.old < cap_of self.old }
        // The pass has made one call more.
        ensures made { made_with self.new ≡ made_with self.old + 1 }
        // The pass keeps its caller.
        ensures caller { caller_of self.new ≡ caller_of self.old }
        // The pass keeps how many calls it may make.
        ensures cap { cap_of self.new ≡ cap_of self.old }
    {
        self.made += 1;
    }
}

impl ObjectPass for CountingPass {
    ghost use Rattle.hunts.specs.Passes.{caller_of, made_with, cap_of};

    ghost caller = { caller_of };

    ghost made = { made_with };

    ghost cap = { cap_of };

    fn caller(&self) -> u32 {
        self.caller
    }

    fn made(&self) -> u64 {
        self.made
    }

    fn cap(&self) -> u64 {
        self.cap
    }
}
