ghost use Rattle.std.specs.Prelude.{◌≡◌, IfOk};
ghost use Rattle.text_fields.specs.Refusal.{refusal_text};

use crate::fault_name::name_of;
use book_base::{NoMemory, TextFault};
use seq_objects::put_number;
use std::alloc::Global;

/// What is written of a text with this fault: `refused`, the line and the name of the fault.
#[tactic(auto, unfolding(crate::specs::Refusal::refusal_text))]
pub fn refusal(alloc: Global, fault: TextFault) -> Result<Vec<u8>, NoMemory>
    ensures { IfOk result (λ text. text.items ≡ refusal_text fault) }
{
    let mut text = b"refused ".to_vec(alloc)?;
    put_number(&mut text, fault.line)?;
    text.extend_from_slice(b" ")?;
    text.extend_from_slice(name_of(fault.what).as_bytes())?;
    text.extend_from_slice(b"\n")?;
    Ok(text)
}
