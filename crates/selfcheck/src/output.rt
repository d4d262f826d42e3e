ghost use Rattle.std.specs.Prelude.{◌≡◌, IfOk};
ghost use Rattle.text_fields.specs.Refusal.{refusal_text};

use book_base::{NoMemory, TextFault};
use byte_streams::Status;
use std::alloc::Global;
use text_fields::refusal;

/// The output of a command: what the program writes, and the status that it then ends with.
#[derive(Debug, Drop)]
pub(crate) struct Output {
    pub status: Status,
    pub text: Vec<u8>,
}

impl Output {
    pub(crate) fn new(alloc: Global, status: Status, text: &[u8]) -> Result<Output, NoMemory>
        ensures status { IfOk result (λ output. output.status ≡ status) }
        ensures text { IfOk result (λ output. output.text.items ≡ text.now) }
    {
        let text = text.to_vec(alloc)?;
        Ok(Output { status, text })
    }

    /// The output for an input that is refused for this fault.
    pub(crate) fn refusal(alloc: Global, fault: TextFault) -> Result<Output, NoMemory>
        ensures status { IfOk result (λ output. output.status ≡ Status.Refused) }
        ensures text { IfOk result (λ output. output.text.items ≡ refusal_text fault) }
    {
        let text = refusal(alloc, fault)?;
        Ok(Output {
            status: Status::Refused,
            text,
        })
    }
}
