ghost use Rattle.std.specs.Prelude.{◌≡◌};
ghost use Rattle.selfcheck_c.specs.FaultNumber.{fault_number, log_fault_number};
ghost use Rattle.selfcheck_c.specs.Refusals.{TellsFault, TellsLogFault};

use book_base::{TextFault, What};
use history_text::{LogFault, LogWhat};

/// Why a text or a log was refused: the line of its first fault, counted from 1, and the number of
/// what is wrong in this line.
#[repr(C)]
#[derive(Clone, Copy)]
pub struct Refusal {
    pub line: u64,
    pub what: u32,
}

impl From<TextFault> for Refusal {
    ghost from_gives = { λ fault refusal. TellsFault fault refusal };

    fn from(fault: TextFault) -> Refusal {
        Refusal {
            line: fault.line,
            what: number_of(fault.what),
        }
    }
}

/// The number by which programs in other languages are told what is wrong with a text.
fn number_of(what: What) -> u32
    ensures { result ≡ fault_number what }
{
    what as u32
}

impl From<LogFault> for Refusal {
    ghost from_gives = { λ fault refusal. TellsLogFault fault refusal };

    fn from(fault: LogFault) -> Refusal {
        Refusal {
            line: fault.line,
            what: number_of_log(fault.what),
        }
    }
}

/// The number by which programs in other languages are told what is wrong with a log.
fn number_of_log(what: LogWhat) -> u32
    ensures { result ≡ log_fault_number what }
{
    what as u32
}
