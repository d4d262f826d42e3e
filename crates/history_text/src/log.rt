ghost use Rattle.std.specs.Prelude.{◌≡◌, List, IfOk, IfErr};
ghost use Rattle.history_text.specs.declared.entry.LinedEntry.{LinedEntry};
ghost use Rattle.history_text.specs.Pairing.{calls_of};
ghost use Rattle.history_text.specs.Log.{IsLog, IsCause};

use crate::call::LogCall;
use crate::clock::Clock;
use crate::fault::LogError;
use crate::format::Format;
use crate::header::header;
use crate::layout::Layout;
use crate::lines::LogLines;
use crate::log_entries::LogEntries;
use crate::pairing::calls;
use std::alloc::Global;

/// The calls of a log that took effect or may have done so, in the order of their invocations in
/// the log. Calls that failed are left out. The first fault of the log is answered.
pub fn read_log<'a>(
    alloc: Global,
    format: Format,
    layout: &Layout,
    clock: Clock,
    bytes: &'a [u8],
) -> Result<Vec<LogCall<'a>>, LogError>
    // The bytes are a log without a fault, and the calls are those of its entries.
    ensures calls { IfOk result (λ calls. (entries : List LinedEntry)
        × IsLog format layout.now clock bytes.now entries
        × (calls.items ≡ calls_of clock entries)) }
    // A fault is the first one of the log.
    ensures cause { IfErr result (IsCause format layout.now clock bytes.now) }
{
    let mut lines = LogLines::new(bytes);
    let names = header(alloc, format, &mut lines)?;
    let mut read = LogEntries::new(alloc);
    while let Some((line, text)) = lines.next() {
        read.read(alloc, format, layout, clock, &names, line, text)?;
    }
    Ok(calls(alloc, clock, &read.entries)?)
}
