//! The text of a script that is drawn.

ghost use Rattle.std.specs.Prelude.{◌≡◌, ◌<◌, ◌^◌, ◌++◌, map, replicate, IfOk, OnOk};
ghost use Rattle.std.specs.List.{AllByRecursion, range_with_len};
ghost use Rattle.text_fields.specs.declared.TheConstants.{TEXT_CALLERS, TEXT_CALLS};
ghost use Rattle.text_fields.specs.declared.version.Version.TheVariants.{Second};
ghost use Rattle.text_fields.specs.Lines.{line_text, text_of, by_number};
ghost use Rattle.client_scripts.specs.Grammar.{call_words, call_line, caller_lines};
ghost use Rattle.client_scripts.specs.ScriptRules.{IsScriptText};
ghost use Rattle.client_scripts.specs.Drawn.{IsWorkload, drawn_operation, drawn_operations, drawn_plan};

use crate::draws::key_of;
use crate::operation::draw_operation;
use crate::workload::Workload;
use book_base::{Call, Cut, NoMemory};
use book_text::fields::{put_head, put_operation, put_spaced};
use seq_objects::put_number;
use std::alloc::Global;

/// The text of the script of a seed.
pub(crate) fn script_text(
    alloc: Global,
    workload: &Workload,
    seed: u64,
) -> Result<Vec<u8>, NoMemory>
    requires { IsWorkload workload.now }
    ensures { IfOk result
        (λ bytes. IsScriptText Second bytes.items (drawn_plan workload.now seed)) }
{
    let mut out = Vec::new(alloc);
    put_head(&mut out, b"script", workload.kind, &counts(workload))?;
    put_calls(&mut out, workload, key_of(seed))?;
    out.extend_from_slice(b"turns\n")?;
    out.extend_from_slice(b"end\n")?;
    Ok(out)
}

/// How many calls each caller makes.
fn counts(workload: &Workload) -> Cut
    requires { IsWorkload workload.now }
    ensures { result ≡ replicate workload.now.callers workload.now.calls }
{
    let mut counts = Cut::zero(workload.callers);
    for caller in 0..workload.callers {
        counts.set(caller, workload.calls);
    }
    counts
}

/// Appends the lines of all calls, with operations drawn under the key of a seed.
fn put_calls(out: &mut Vec<u8>, workload: &Workload, key: u64) -> Result<(), NoMemory>
    requires { IsWorkload workload.now }
    ensures calls { OnOk result (out.new.items ≡ out.old.items
        ++ text_of (by_number (caller_lines workload.now.kind) 0
        (map (drawn_operations workload.now key) (range_with_len 0 workload.now.callers)))) }
    ensures words { OnOk result (AllByRecursion (AllByRecursion (λ op. op < 2 ^ 128))
        (map (drawn_operations workload.now key) (range_with_len 0 workload.now.callers))) }
{
    for caller in 0..workload.callers {
        put_caller(out, workload, key, caller)?;
    }
    Ok(())
}

/// Appends the lines of a caller's calls, with operations drawn under the key of a seed.
fn put_caller(out: &mut Vec<u8>, workload: &Workload, key: u64, caller: u32) -> Result<(), NoMemory>
    requires workload { IsWorkload workload.now }
    requires caller { caller < TEXT_CALLERS }
    ensures calls { OnOk result (out.new.items ≡ out.old.items
        ++ text_of (by_number (call_line workload.now.kind caller) 0
        (drawn_operations workload.now key caller))) }
    ensures words { OnOk result (AllByRecursion (λ op. op < 2 ^ 128)
        (drawn_operations workload.now key caller)) }
{
    for number in 0..workload.calls {
        put_call(out, workload, key, Call { caller, number })?;
    }
    Ok(())
}

/// Appends the line of a call, with an operation drawn under the key of a seed.
fn put_call(out: &mut Vec<u8>, workload: &Workload, key: u64, call: Call) -> Result<(), NoMemory>
    requires workload { IsWorkload workload.now }
    requires caller { call.caller < TEXT_CALLERS }
    requires number { call.number < TEXT_CALLS }
    ensures call { OnOk result (out.new.items ≡ out.old.items
        ++ line_text (call_words workload.now.kind call
        (drawn_operation workload.now key call.caller call.number))) }
    ensures word { drawn_operation workload.now key call.caller call.number < 2 ^ 128 }
{
    let op = draw_operation(workload, key, call);
    put_number(out, u64::from(call.caller))?;
    put_spaced(out, call.number)?;
    put_operation(out, workload.kind, op)?;
    out.push(b'\n')?;
    Ok(())
}
