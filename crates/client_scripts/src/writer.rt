//! The text of a script.

ghost use Rattle.std.specs.Prelude.{◌≡◌, ◌<◌, ◌++◌, length, map, decimal, slice_index, IfOk, OnOk};
ghost use Rattle.text_fields.specs.declared.version.Version.TheVariants.{Second};
ghost use Rattle.text_fields.specs.Lines.{line_text, text_of, by_number};
ghost use Rattle.client_scripts.specs.Plans.{IsPlan, IsCall, operations_of, sizes};
ghost use Rattle.client_scripts.specs.Grammar.{call_words, caller_lines, stop_line, turns_words, IsWrittenText};
ghost use Rattle.client_scripts.specs.ScriptRules.{IsScriptText};
ghost use Rattle.book_text.specs.Fields.{spaced};

use crate::script::Script;
use book_base::{Call, Cut, NoMemory};
use book_text::fields::{put_head, put_operation, put_spaced};
use seq_objects::put_number;
use std::alloc::Global;

/// The one text of a script, in version 2.
pub fn write_script(alloc: Global, script: &Script) -> Result<Vec<u8>, NoMemory>
    // The bytes are what is written of the script.
    ensures written { IfOk result (λ bytes. IsWrittenText Second bytes.items script.now) }
    // A reader reads the bytes as the script.
    ensures read { IfOk result (λ bytes. IsScriptText Second bytes.items script.now) }
{
    let mut out = Vec::new(alloc);
    put_head(&mut out, b"script", script.kind(), &announced(script))?;
    put_calls(&mut out, script)?;
    put_stops(&mut out, script)?;
    put_turns(&mut out, script.turns())?;
    out.extend_from_slice(b"end\n")?;
    Ok(out)
}

/// How many calls each caller makes.
fn announced(script: &Script) -> Cut
    ensures counts { result ≡ sizes script.now.operations }
    ensures plan { IsPlan Second script.now }
{
    let mut counts = Cut::zero(script.callers());
    for caller in 0..script.callers() {
        counts.set(caller, script.calls(caller));
    }
    counts
}

/// Appends the lines of all calls.
fn put_calls(out: &mut Vec<u8>, script: &Script) -> Result<(), NoMemory>
    ensures { OnOk result (out.new.items ≡ out.old.items
        ++ text_of (by_number (caller_lines script.now.kind) 0 script.now.operations)) }
{
    for caller in 0..script.callers() {
        put_caller(out, script, caller)?;
    }
    Ok(())
}

/// Appends the lines of a caller's calls.
fn put_caller(out: &mut Vec<u8>, script: &Script, caller: u32) -> Result<(), NoMemory>
    requires { caller < length script.now.operations }
    ensures { OnOk result (out.new.items ≡ out.old.items
        ++ text_of (caller_lines script.now.kind caller (operations_of script.now caller))) }
{
    for number in 0..script.calls(caller) {
        put_call(out, script, Call { caller, number })?;
    }
    Ok(())
}

/// Appends the line of a call.
fn put_call(out: &mut Vec<u8>, script: &Script, call: Call) -> Result<(), NoMemory>
    requires { IsCall script.now call }
    ensures { OnOk result (let ops = operations_of script.now call.caller in
        out.new.items ≡ out.old.items
        ++ line_text (call_words script.now.kind call (slice_index ops call.number))) }
{
    put_number(out, u64::from(call.caller))?;
    put_spaced(out, call.number)?;
    put_operation(out, script.kind(), script.op(call))?;
    out.push(b'\n')?;
    Ok(())
}

/// Appends the lines of the stops.
fn put_stops(out: &mut Vec<u8>, script: &Script) -> Result<(), NoMemory>
    ensures { OnOk result (out.new.items ≡ out.old.items
        ++ text_of (by_number stop_line 0 script.now.stops)) }
{
    for caller in 0..script.callers() {
        put_stop(out, caller, script.stop(caller))?;
    }
    Ok(())
}

/// Appends the line of a caller's stop, where it has one.
fn put_stop(out: &mut Vec<u8>, caller: u32, stop: Option<u64>) -> Result<(), NoMemory>
    ensures { OnOk result (out.new.items ≡ out.old.items ++ text_of (stop_line caller stop)) }
{
    let Some(phases) = stop else {
        return Ok(());
    };
    out.extend_from_slice(b"stop")?;
    put_spaced(out, u64::from(caller))?;
    put_spaced(out, phases)?;
    out.push(b'\n')?;
    Ok(())
}

/// Appends the line of the turns.
fn put_turns(out: &mut Vec<u8>, turns: &[u32]) -> Result<(), NoMemory>
    ensures { OnOk result (out.new.items
        ≡ out.old.items ++ line_text (turns_words turns.now)) }
{
    out.extend_from_slice(b"turns")?;
    put_turn_words(out, turns)?;
    out.push(b'\n')?;
    Ok(())
}

/// Appends each turn after a space.
fn put_turn_words(out: &mut Vec<u8>, turns: &[u32]) -> Result<(), NoMemory>
    ensures { OnOk result (out.new.items ≡ out.old.items ++ spaced (map decimal turns.now)) }
{
    for turn in turns {
        put_spaced(out, u64::from(*turn))?;
    }
    Ok(())
}
