ghost use Rattle.std.specs.Prelude.{◌≤◌, length, IfOk, IfErr};
ghost use Rattle.certificate_text.specs.Certificates.{IsOrderVerdict};
ghost use Rattle.certificate_text.specs.CertificateRules.{IsFirstCertificateFault};
ghost use Rattle.selfcheck.specs.Output.{IsOutputOf};
ghost use Rattle.selfcheck.specs.Refusal.{IsReadFault};

use crate::command::Command;
use crate::input::check_length;
use crate::order_fault::fault_text;
use crate::output::Output;
use book_base::{NoMemory, ReadFault};
use byte_streams::{INPUT_LIMIT, Status};
use certificate_text::OrderVerdict;
use std::alloc::Global;

/// The output of `order` for the bytes read.
pub(crate) fn order(alloc: Global, bytes: &[u8]) -> Result<Output, NoMemory>
    ensures { IfOk result (λ output.
        IsOutputOf Command.Order bytes.now output.status output.text.items) }
{
    match verdict(alloc, bytes) {
        Ok(OrderVerdict::Legal) => Output::new(alloc, Status::Fine, b"legal\n"),
        Ok(OrderVerdict::Faulty(fault)) => Ok(Output {
            status: Status::Found,
            text: fault_text(alloc, fault)?,
        }),
        Err(ReadFault::Text(fault)) => Output::refusal(alloc, fault),
        Err(ReadFault::NoMemory) => Err(NoMemory),
    }
}

/// The verdict on the certificate that an input is the text of.
fn verdict(alloc: Global, bytes: &[u8]) -> Result<OrderVerdict, ReadFault>
    ensures short { IfOk result (λ _. length bytes.now ≤ INPUT_LIMIT) }
    ensures verdict { IfOk result (IsOrderVerdict bytes.now) }
    ensures refused { IfErr result (IsReadFault IsFirstCertificateFault bytes.now) }
{
    check_length(bytes)?;
    certificate_text::order(alloc, bytes)
}
