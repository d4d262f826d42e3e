ghost use Rattle.std.specs.Prelude.{◌≡◌, IfOk};
ghost use Rattle.core_objects.specs.CoreObjects.{ArePassesFor};
ghost use Rattle.core_objects.specs.OneWordPasses.{FitsOneWord};

use book_base::NoMemory;
use std::alloc::Global;

/// What one caller holds to ask an object of one word: the number of this caller, the number of
/// callers, and the cap.
#[derive(Drop)]
pub struct OneWordPass {
    caller: u32,
    callers: u32,
    cap: u64,
}

impl OneWordPass {
    /// A pass for each of `n` callers with `cap` calls each, in order.
    pub fn for_callers(alloc: Global, n: u32, cap: u64) -> Result<Vec<OneWordPass>, NoMemory>
        ensures { IfOk result (λ passes. ArePassesFor FitsOneWord n cap passes.items) }
    {
        let mut passes = Vec::with_capacity(alloc, n as usize)?;
        for caller in 0..n {
            passes.push(OneWordPass {
                caller,
                callers: n,
                cap,
            })?;
        }
        Ok(passes)
    }
}
