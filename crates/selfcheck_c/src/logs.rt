ghost use Rattle.std.specs.Prelude.{◌≡◌, ◌⊎◌, ℕ, ◌<◌, ◌≤◌, List, drop, length, take};
ghost use Rattle.log_books.specs.Parts.{IsImported};
ghost use Rattle.selfcheck_c.specs.declared.TheConstants.{REFUSED, NO_MEMORY, NO_ROOM};
ghost use Rattle.selfcheck_c.specs.declared.handles.TheConstants.{DONE, UNFIT};
ghost use Rattle.selfcheck_c.specs.Refusals.{IsLogRefusal};

use crate::buffer::put;
use crate::handles::{DONE, UNFIT};
use crate::refusal::Refusal;
use crate::{NO_MEMORY, NO_ROOM, REFUSED};
use history_text::LogError;
use log_books::import_by;
use std::alloc::Global;

/// Writes into a buffer what is written of a log: for each key its name, the names of its values,
/// the lines of its calls and its book, or why it has none. The words say how the log is read, each
/// with a line feed after it. `written` is the text's length, even where the buffer can't hold it
/// and nothing is written. Where the log is refused, `refusal` says why, by the number of a log's
/// fault.
#[unsafe(no_mangle)]
pub extern "C" fn selfcheck_import(
    alloc: Global,
    words: &[u8],
    log: &[u8],
    buffer: &mut [u8],
    written: &mut usize,
    refusal: &mut Refusal,
) -> u32
    // With `DONE` the text fits the buffer.
    ensures held { result ≡ DONE → written.new ≤ length buffer.new }
    // With `DONE` the first `written` bytes of the buffer consist of parts, each of which ends with
    // the text of the book of some of the log's calls, or with the line of a fault.
    ensures parts { result ≡ DONE → IsImported log.now (take written.new buffer.new) }
    // With `DONE` the bytes of the buffer after the first `written` are as they were.
    ensures rest { result ≡ DONE → drop written.new buffer.new ≡ drop written.new buffer.old }
    // With `REFUSED` the refusal has the line and the number of a fault of a log.
    ensures refused { result ≡ REFUSED → IsLogRefusal refusal.new }
    // With `NO_ROOM` the count `written` is greater than the length of the buffer.
    ensures no_room { result ≡ NO_ROOM → length buffer.old < written.new }
    // With `NO_ROOM` there is such a text, `written` bytes long.
    ensures unheld { result ≡ NO_ROOM → (wanted : List ℕ) × IsImported log.now wanted
        × (length wanted ≡ written.new) }
    // With each status but `DONE` the buffer is as it was.
    ensures unwritten { ¬ (result ≡ DONE) → buffer.new ≡ buffer.old }
    // With each status but `REFUSED` the refusal is as it was.
    ensures kept { ¬ (result ≡ REFUSED) → refusal.new ≡ refusal.old }
    // With each status but `DONE` and `NO_ROOM` the count `written` is as it was.
    ensures uncounted { ¬ (result ≡ DONE) → ¬ (result ≡ NO_ROOM) → written.new ≡ written.old }
    // The status is `DONE`, `REFUSED`, `NO_MEMORY`, `NO_ROOM` or `UNFIT`.
    ensures ends { (result ≡ DONE) ⊎ (result ≡ REFUSED) ⊎ (result ≡ NO_MEMORY) ⊎ (result ≡ NO_ROOM)
        ⊎ (result ≡ UNFIT) }
{
    match import_by(alloc, words, log) {
        Ok(Some(imported)) => {
            *written = imported.text.len();
            if put(buffer, &imported.text) {
                DONE
            } else {
                NO_ROOM
            }
        }
        Ok(None) => UNFIT,
        Err(LogError::Fault(fault)) => {
            *refusal = Refusal::from(fault);
            REFUSED
        }
        Err(LogError::NoMemory) => NO_MEMORY,
    }
}
