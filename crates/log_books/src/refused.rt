ghost use Rattle.std.specs.Prelude.{◌≡◌, IfOk};
ghost use Rattle.log_books.specs.Refusal.{log_fault_name, log_refusal_text};

use book_base::NoMemory;
use history_text::{LogFault, LogWhat};
use seq_objects::put_number;
use std::alloc::Global;

// The name of what is wrong with a line, as it is written.
#[tactic(auto, unfolding(crate::specs::Refusal::log_fault_name))]
fn name_of(what: LogWhat) -> &'static str
    ensures { result.now ≡ log_fault_name what }
{
    match what {
        LogWhat::Line => "Line",
        LogWhat::Header => "Header",
        LogWhat::Process => "Process",
        LogWhat::Type => "Type",
        LogWhat::Operation => "Operation",
        LogWhat::Time => "Time",
        LogWhat::Pending => "Pending",
        LogWhat::Unasked => "Unasked",
        LogWhat::Value => "Value",
        LogWhat::Reply => "Reply",
        LogWhat::TooMany => "TooMany",
        LogWhat::Long => "Long",
    }
}

/// What is written of a log with this fault: `refused`, the line and the name of the fault.
#[tactic(auto, unfolding(crate::specs::Refusal::log_refusal_text))]
pub fn log_refusal(alloc: Global, fault: LogFault) -> Result<Vec<u8>, NoMemory>
    // The bytes are the line that tells the fault.
    ensures { IfOk result (λ text. text.items ≡ log_refusal_text fault) }
{
    let mut text = b"refused ".to_vec(alloc)?;
    put_number(&mut text, fault.line)?;
    text.extend_from_slice(b" ")?;
    text.extend_from_slice(name_of(fault.what).as_bytes())?;
    text.extend_from_slice(b"\n")?;
    Ok(text)
}
