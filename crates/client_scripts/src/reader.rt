//! Whole texts of scripts.

ghost use Rattle.std.specs.Prelude.{◌≡◌, ◌⊎◌, IfOk, IfErr, MatchResult};
ghost use Rattle.book_base.specs.declared.fault.TextFault.{TextFault};
ghost use Rattle.text_fields.specs.declared.version.Version.{Version};
ghost use Rattle.text_fields.specs.declared.version.Version.TheVariants.{First, Second};
ghost use Rattle.text_fields.specs.Faults.{StopsFor};
ghost use Rattle.text_fields.specs.Head.{TitleDue};
ghost use Rattle.book_text.specs.BookRules.{whole_text};
ghost use Rattle.client_scripts.specs.Plans.{Plan};
ghost use Rattle.client_scripts.specs.ScriptRules.{InHead, script_rules, IsScriptText, IsNoScriptText, IsFirstScriptFault};

use crate::calls::read_clients;
use crate::script::Script;
use crate::tail::read_tail;
use book_base::ReadFault;
use book_text::read_end;
use std::alloc::Global;
use text_fields::{KindWords, Lines, Version, read_head_of};

/// The script that the bytes are the text of, in version 2.
///
/// A text fault names the first wrong line, and the first test that this line fails.
pub fn read_script(alloc: Global, bytes: &[u8]) -> Result<Script, ReadFault>
    // A script that was read is the one that the bytes are the text of.
    ensures found { IfOk result (λ script. IsScriptText Second bytes.now script) }
    // A text of a script is read as that script, unless memory runs out.
    ensures only { (plan : Plan) → IsScriptText Second bytes.now plan
        → MatchResult result (λ script. script ≡ plan) (λ e. e ≡ ReadFault.NoMemory) }
    // A fault of the text is the first fault of bytes that are no script's text.
    ensures refused { IfErr result (λ e. (e ≡ ReadFault.NoMemory)
        ⊎ ((fault : TextFault) × (e ≡ ReadFault.Text fault)
        × IsFirstScriptFault Second bytes.now fault × IsNoScriptText Second bytes.now)) }
    // Where the bytes have a first fault, the answer is that fault, unless memory runs out.
    ensures first { (fault : TextFault) → IsFirstScriptFault Second bytes.now fault
        → MatchResult result (λ _. ⊥)
        (λ e. (e ≡ ReadFault.Text fault) ⊎ (e ≡ ReadFault.NoMemory)) }
{
    read_version(Version::Second, alloc, bytes)
}

/// The script that the bytes are the text of, in version 1.
///
/// A text fault names the first wrong line, and the first test that this line fails.
pub fn read_script1(alloc: Global, bytes: &[u8]) -> Result<Script, ReadFault>
    // A script that was read is the one that the bytes are the text of.
    ensures found { IfOk result (λ script. IsScriptText First bytes.now script) }
    // A text of a script is read as that script, unless memory runs out.
    ensures only { (plan : Plan) → IsScriptText First bytes.now plan
        → MatchResult result (λ script. script ≡ plan) (λ e. e ≡ ReadFault.NoMemory) }
    // A fault of the text is the first fault of bytes that are no script's text.
    ensures refused { IfErr result (λ e. (e ≡ ReadFault.NoMemory)
        ⊎ ((fault : TextFault) × (e ≡ ReadFault.Text fault)
        × IsFirstScriptFault First bytes.now fault × IsNoScriptText First bytes.now)) }
    // Where the bytes have a first fault, the answer is that fault, unless memory runs out.
    ensures first { (fault : TextFault) → IsFirstScriptFault First bytes.now fault
        → MatchResult result (λ _. ⊥)
        (λ e. (e ≡ ReadFault.Text fault) ⊎ (e ≡ ReadFault.NoMemory)) }
{
    read_version(Version::First, alloc, bytes)
}

/// The script that the bytes are the text of, in this version.
fn read_version(version: Version, alloc: Global, bytes: &[u8]) -> Result<Script, ReadFault>
    ensures found { IfOk result (λ script. IsScriptText version bytes.now script) }
    ensures refused { IfErr result (λ e.
        StopsFor (script_rules version) (InHead TitleDue) (whole_text bytes.now) e) }
{
    let mut lines = Lines::new(bytes);
    let head = read_head_of(version, &mut lines, b"script")?;
    let operations = KindWords {
        version,
        kind: head.kind,
    };
    let mut clients = read_clients(alloc, &mut lines, &head.calls, &operations)?;
    let turns = read_tail(alloc, &mut lines, &mut clients)?;
    read_end(&mut lines)?;
    Ok(Script::from_parts(head.kind, clients, turns))
}
