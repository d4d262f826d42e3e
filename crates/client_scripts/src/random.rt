//! Random scripts, drawn by a seed.

ghost use Rattle.std.specs.Prelude.{◌≡◌, IfOk};
ghost use Rattle.client_scripts.specs.Drawn.{IsWorkload, drawn_plan};

use crate::text::script_text;
use crate::workload::Workload;
use crate::{Script, read_script};
use book_base::{NoMemory, ReadFault};
use std::alloc::Global;

/// The script of a seed: each caller makes as many calls as the workload says, none stops, and
/// there are no turns. The operation of each call is drawn by itself: a workload that differs only
/// in having more calls gives each caller the same first operations for a seed.
pub fn random_script(alloc: Global, workload: &Workload, seed: u64) -> Result<Script, NoMemory>
    // The workload is within the limits of scripts' texts, with at least one value to draw, and a
    // weight above 0.
    requires { IsWorkload workload.now }
    // The answer is the script that is drawn of this seed for this workload.
    ensures { IfOk result (λ script. script ≡ drawn_plan workload.now seed) }
{
    let text = script_text(alloc, workload, seed)?;
    match read_script(alloc, &text) {
        Ok(script) => Ok(script),
        Err(ReadFault::NoMemory) => Err(NoMemory),
        Err(ReadFault::Text(_)) => unreachable!(),
    }
}
