ghost use Rattle.std.specs.Prelude.{◌≡◌, ◌≤◌, length, IfOk, IfErr};
ghost use Rattle.client_scripts.specs.ScriptRules.{IsFirstScriptFault, IsScriptText};
ghost use Rattle.text_fields.specs.declared.version.Version.TheVariants.{Second};
ghost use Rattle.byte_streams.specs.declared.TheConstants.{INPUT_LIMIT};
ghost use Rattle.byte_streams.specs.Fault.{LeavesSink};
ghost use Rattle.selfcheck.specs.Watched.{IsSeenOutputOf};
ghost use Rattle.selfcheck.specs.ScriptTasks.{command_for};
ghost use Rattle.selfcheck.specs.Refusal.{IsReadFault};
ghost use Rattle.byte_streams.specs.Writing.{EndsWriting};

use crate::input::check_length;
use crate::output::Output;
use crate::script_task::ScriptTask;
use crate::write_output::write_told;
use book_base::ReadFault;
use byte_streams::{Sink, Status};
use client_scripts::{Script, read_script};
use named_runs::Onlooker;
use std::alloc::Global;
use std::thread::Threads;
use test_objects::Behaviour;

/// Does a task with the script that the bytes are the text of, over the object of a behaviour, and
/// writes its output. Where they are the text of no script, or are too many, it writes their first
/// fault.
pub(crate) fn run_script<R: Threads + Sync, W: Onlooker, K: Sink>(
    rt: &R,
    alloc: Global,
    task: ScriptTask,
    behaviour: Behaviour,
    bytes: &[u8],
    watch: &mut W,
    sink: &mut K,
) -> Status
    ensures ends { EndsWriting (IsSeenOutputOf (command_for task behaviour)
        (W.shown watch.old) (W.shown watch.new) bytes.now)
        result (K.taken sink.old) (K.taken sink.new) }
    ensures faults { LeavesSink K.faults result sink.old sink.new }
{
    match read_input_script(alloc, bytes) {
        Ok(script) => task.carry_out(rt, alloc, behaviour, &script, watch, sink),
        Err(ReadFault::Text(fault)) => write_told(Output::refusal(alloc, fault), sink),
        Err(ReadFault::NoMemory) => Status::NoMemory,
    }
}

/// The script that an input is the text of.
fn read_input_script(alloc: Global, bytes: &[u8]) -> Result<Script, ReadFault>
    ensures short { IfOk result (λ _. length bytes.now ≤ INPUT_LIMIT) }
    ensures script { IfOk result (λ script. IsScriptText Second bytes.now script) }
    ensures refused { IfErr result (IsReadFault (IsFirstScriptFault Second) bytes.now) }
{
    check_length(bytes)?;
    read_script(alloc, bytes)
}
