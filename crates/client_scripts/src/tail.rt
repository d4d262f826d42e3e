//! The lines after a script's calls: stops, and then the turns.

ghost use Rattle.std.specs.Prelude.{◌≤◌, length, IfOk, IfErr};
ghost use Rattle.book_base.specs.declared.TheConstants.{MAX_CALLERS};
ghost use Rattle.client_scripts.specs.Parts.{IsTailRead, IsTailStopped};

use crate::script::CallerScript;
use crate::tail_line::{TailLine, read_tail_line};
use book_base::ReadFault;
use std::alloc::Global;
use text_fields::Lines;

/// Reads the stops into the clients, and then the turns.
pub(crate) fn read_tail(
    alloc: Global,
    lines: &mut Lines,
    clients: &mut Vec<CallerScript>,
) -> Result<Vec<u32>, ReadFault>
    requires { length clients.old.items ≤ MAX_CALLERS }
    ensures found { IfOk result (λ turns.
        IsTailRead clients.old.items lines.old clients.new.items turns.items lines.new) }
    ensures refused { IfErr result (IsTailStopped clients.old.items lines.old) }
{
    let mut least = 0;
    loop {
        let number = lines.number();
        let line = lines.line()?;
        match read_tail_line(alloc, line, number, clients, least)? {
            TailLine::Stop(caller, phases) => {
                clients[caller as usize].stop = Some(phases);
                least = caller + 1;
            }
            TailLine::Turns(turns) => return Ok(turns),
        }
    }
}
