ghost use Rattle.std.specs.Prelude.{◌≡◌, ◌↔◌, ◌≢◌, ◌≤◌, ℕ, length, IsTrue, IfOk, IfErr, IfSome, IfNone};
ghost use Rattle.seq_objects.specs.declared.kind.Kind.{Kind as TheKind};
ghost use Rattle.client_scripts.specs.ScriptRules.{IsScriptText};
ghost use Rattle.text_fields.specs.declared.version.Version.TheVariants.{Second};
ghost use Rattle.text_fields.specs.Head.{object_words};
ghost use Rattle.text_fields.specs.Lines.{words_of};
ghost use Rattle.byte_streams.specs.declared.TheConstants.{INPUT_LIMIT};
ghost use Rattle.byte_streams.specs.Fault.{LeavesSink};
ghost use Rattle.byte_streams.specs.Writing.{EndsWriting};
ghost use Rattle.selfcheck.specs.MonitorInput.{LeavesTwo, IsOpening, IsCrowded, IsFirstMonitorFault};
ghost use Rattle.selfcheck.specs.Watched.{IsSeenOutputOf};
ghost use Rattle.selfcheck.specs.Refusal.{IsReadFault};

use crate::command::Command;
use crate::input::check_length;
use crate::output::Output;
use crate::write_output::write_told;
use book_base::{MAX_CALLERS, ReadFault, TextFault, What};
use byte_streams::{Sink, Status};
use client_scripts::{Script, read_script};
use named_runs::{Onlooker, monitor_behaviour};
use seq_objects::Kind;
use std::alloc::Global;
use std::thread::Threads;
use test_objects::Behaviour;
use text_fields::{Lines, Version, Words, are_words, callers_of};

/// Reads a script from bytes, runs it over the object of a behaviour while two monitors watch, and
/// writes what the monitors found, or the first fault of the bytes.
pub(crate) fn monitor_script<R: Threads + Sync, W: Onlooker, K: Sink>(
    rt: &R,
    alloc: Global,
    behaviour: Behaviour,
    bytes: &[u8],
    watch: &mut W,
    sink: &mut K,
) -> Status
    ensures ends { EndsWriting (IsSeenOutputOf (Command.Monitor behaviour)
        (W.shown watch.old) (W.shown watch.new) bytes.now)
        result (K.taken sink.old) (K.taken sink.new) }
    ensures faults { LeavesSink K.faults result sink.old sink.new }
{
    match read_monitored(alloc, bytes) {
        Ok(script) => monitor_behaviour(rt, alloc, behaviour, &script, watch, sink),
        Err(ReadFault::Text(fault)) => write_told(Output::refusal(alloc, fault), sink),
        Err(ReadFault::NoMemory) => Status::NoMemory,
    }
}

/// The script whose text the bytes are, if it leaves two callers for the monitors; else the first
/// fault, or that memory is lacking.
fn read_monitored(alloc: Global, bytes: &[u8]) -> Result<Script, ReadFault>
    ensures short { IfOk result (λ _. length bytes.now ≤ INPUT_LIMIT) }
    ensures script { IfOk result (λ script. IsScriptText Second bytes.now script) }
    ensures few { IfOk result LeavesTwo }
    ensures refused { IfErr result (IsReadFault IsFirstMonitorFault bytes.now) }
{
    check_length(bytes)?;
    if is_crowded(bytes) {
        return Err(ReadFault::Text(TextFault {
            line: 3,
            what: What::Callers,
        }));
    }
    read_script(alloc, bytes)
}

/// Whether the first three lines are those of a script with so many callers that a table can't have
/// two monitors beside them.
fn is_crowded(bytes: &[u8]) -> bool
    ensures { IsTrue result ↔ IsCrowded bytes.now }
{
    match callers_told(bytes) {
        Some(callers) => callers as usize + 2 > MAX_CALLERS,
        None => false,
    }
}

/// The number of callers that the first three lines tell, where they are those of a script;
/// otherwise `None`.
fn callers_told(bytes: &[u8]) -> Option<u32>
    ensures found { IfSome result (IsOpening bytes.now) }
    ensures none { IfNone result ((callers : ℕ) → ¬ IsOpening bytes.now callers) }
{
    let mut lines = Lines::new(bytes);
    let Ok(title) = lines.line() else {
        return None;
    };
    let Ok(object) = lines.line() else {
        return None;
    };
    let Ok(callers) = lines.line() else {
        return None;
    };
    if !are_words(&mut Words::new(title), b"script", b"2") || !names_a_kind(object) {
        return None;
    }
    callers_of(Version::Second, &mut Words::new(callers))
}

/// Whether a line is an object line with the name of a kind.
fn names_a_kind(line: &[u8]) -> bool
    ensures yes { IsTrue result → (kind : TheKind) × (words_of line.now ≡ object_words kind) }
    ensures no { ¬ IsTrue result → (kind : TheKind) → words_of line.now ≢ object_words kind }
{
    let mut words = Words::new(line);
    let Some(first) = words.next() else {
        return false;
    };
    let Some(name) = words.next() else {
        return false;
    };
    first == b"object".as_slice() && words.next().is_none() && Kind::from_name(name).is_some()
}
