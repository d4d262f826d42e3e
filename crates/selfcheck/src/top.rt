ghost use Rattle.std.specs.Prelude.{◌≡◌, ℕ, ◌⊎◌, ◌≤◌, List, [], Some, IsNone, IsSomeAnd, IfOk, IsErrOf, IsTrue};
ghost use Rattle.std.specs.Io.KnownBytes.{Appends};
ghost use Rattle.selfcheck.specs.declared.command.Command.{Command};
ghost use Rattle.byte_streams.specs.declared.status.Status.{Status};
ghost use Rattle.selfcheck.specs.Command.{command_of, reads_source};
ghost use Rattle.selfcheck.specs.CommandLine.{is_parsed};
ghost use Rattle.byte_streams.specs.Fault.{Rose, LeavesSink};
ghost use Rattle.selfcheck.specs.Output.{IsTaken, HasOneStatus, RunsInside, ReadsFor, EndsBy, Ends, IsUnfinished, input_of};
ghost use Rattle.selfcheck.specs.Watched.{IsSeenOutputOf, IsSeenOutput};
ghost use Rattle.byte_streams.specs.Told.{AppendsPart};
ghost use Rattle.byte_streams.specs.Writing.{EndsWriting};

use crate::command::Command;
use crate::draw::draw;
use crate::monitor_script::monitor_script;
use crate::order::order;
use crate::run_script::run_script;
use crate::script_task::ScriptTask;
use crate::sets::sets;
use crate::soak::soak;
use crate::upgrade::upgrade;
use crate::verify::verify;
use crate::write_output::write_told;
use book_base::NoMemory;
use byte_streams::{ReadAllError, Sink, Source, Status, read_all, write_text};
use named_runs::{Onlooker, Unwatched};
use std::alloc::Global;
use std::thread::Threads;

/// The output for words that name no command.
const USAGE: &[u8] = b"usage: selfcheck COMMAND\n";

/// Reads the bytes that a command works on: those of the source, where the command reads it, and
/// otherwise none.
fn read_for<S: Source>(
    command: Command,
    alloc: Global,
    source: &mut S,
) -> Result<Vec<u8>, ReadAllError>
    ensures read { IfOk result
        (λ bytes. ReadsFor command (S.left source.old) (S.left source.new) bytes.items) }
    ensures unread { ¬ IsTrue (reads_source command) → source.new ≡ source.old }
    ensures empty { IfOk result (λ bytes. ¬ IsTrue (reads_source command) → bytes.items ≡ []) }
    ensures later { S.faults source.old ≤ S.faults source.new }
    ensures cause { IsErrOf result ReadAllError.Fault
        → Rose (S.faults source.old) (S.faults source.new) }
    ensures calm { ¬ IsErrOf result ReadAllError.Fault → S.faults source.new ≡ S.faults source.old }
{
    if command.reads_source() {
        read_all(alloc, source)
    } else {
        Ok(Vec::new(alloc))
    }
}

/// Makes the output of a command for the bytes that it works on, and writes it. A command that
/// reads no source has no bytes.
fn answer<R: Threads + Sync, W: Onlooker, K: Sink>(
    rt: &R,
    alloc: Global,
    command: Command,
    bytes: &[u8],
    watch: &mut W,
    sink: &mut K,
) -> Status
    requires { ¬ IsTrue (reads_source command) → bytes.now ≡ [] }
    ensures ends { EndsWriting
        (IsSeenOutputOf command (W.shown watch.old) (W.shown watch.new) bytes.now)
        result (K.taken sink.old) (K.taken sink.new) }
    ensures faults { LeavesSink K.faults result sink.old sink.new }
{
    match command {
        Command::Verify => write_told(verify(alloc, bytes), sink),
        Command::Sketch => write_told(draw(alloc, bytes), sink),
        Command::Order => write_told(order(alloc, bytes), sink),
        Command::Upgrade => write_told(upgrade(alloc, bytes), sink),
        Command::Sets => write_told(sets(alloc, bytes), sink),
        Command::Run(behaviour) => {
            run_script(rt, alloc, ScriptTask::Run, behaviour, bytes, watch, sink)
        }
        Command::Replay(behaviour) => {
            run_script(rt, alloc, ScriptTask::Replay, behaviour, bytes, watch, sink)
        }
        Command::Certify(behaviour) => {
            run_script(
                rt,
                alloc,
                ScriptTask::Certify,
                behaviour,
                bytes,
                watch,
                sink,
            )
        }
        Command::Monitor(behaviour) => monitor_script(rt, alloc, behaviour, bytes, watch, sink),
        Command::Soak(number) => soak(rt, alloc, number, watch, sink),
    }
}

/// Runs the command that the words name: reads the source, where the command reads it, and writes
/// the output to the sink. For words that name no command it writes how the program is used.
pub fn selfcheck<R: Threads + Sync, S: Source, K: Sink>(
    rt: &R,
    alloc: Global,
    words: &[String],
    source: &mut S,
    sink: &mut K,
) -> Status
    // The status says which bytes were read and which were written: the whole output of the command
    // for the input, a prefix of it, or nothing.
    ensures ends { Ends words.now result (S.left source.old) (S.left source.new) (K.taken sink.old)
        (K.taken sink.new) }

    // For words that name no command the status is `Usage`, `WriteFault` or `NoMemory`, whatever
    // the input.
    ensures usage { IsNone (command_of words.now) →
        (result ≡ Status.Usage) ⊎ (result ≡ Status.WriteFault) ⊎ (result ≡ Status.NoMemory) }
    // For words that aren't handed to clap the status is `Usage` or `WriteFault`.
    ensures unparsed { ¬ IsTrue (is_parsed words.now) →
        (result ≡ Status.Usage) ⊎ (result ≡ Status.WriteFault) }
    // The source stays unread where the words don't name a command that reads it.
    ensures unread { ¬ IsSomeAnd (command_of words.now) (λ command. IsTrue (reads_source command))
        → source.new ≡ source.old }

    // Where all outputs of the command for the input have one status, that status is returned, or
    // `ReadFault`, `WriteFault` or `NoMemory`.
    ensures exact { (command : Command) (held : List ℕ) (status : Status)
        → command_of words.now ≡ Some command →
        S.left source.old ≡ Some held → HasOneStatus command (input_of command held) status →
        (result ≡ status) ⊎ IsUnfinished result }

    // For a command that makes a run over an object inside the world, with an input that it takes,
    // the status is `Fine`, or `ReadFault`, `WriteFault` or `NoMemory`.
    ensures right { (command : Command) (held : List ℕ) → command_of words.now ≡ Some command →
        S.left source.old ≡ Some held → IsTaken command (input_of command held) →
        RunsInside command (input_of command held) → (result ≡ Status.Fine) ⊎ IsUnfinished result }
    // For a soak the status is `Fine`, or `ReadFault`, `WriteFault` or `NoMemory`.
    ensures soak { (number : ℕ) → command_of words.now ≡ Some (Command.Soak number) →
        (result ≡ Status.Fine) ⊎ IsUnfinished result }

    // For an input that the command takes, where neither the source's nor the sink's count of
    // faults rose in this call, the status is `Fine`, `Found` or `NoMemory`.
    ensures complete { (command : Command) (held : List ℕ) → command_of words.now ≡ Some command →
        S.left source.old ≡ Some held → IsTaken command (input_of command held) →
        ¬ Rose (S.faults source.old) (S.faults source.new)
        → ¬ Rose (K.faults sink.old) (K.faults sink.new) →
        (result ≡ Status.Fine) ⊎ (result ≡ Status.Found) ⊎ (result ≡ Status.NoMemory) }

    // The status is `ReadFault` only where the source's count of faults rose in this call.
    ensures read_fault { result ≡ Status.ReadFault
        → Rose (S.faults source.old) (S.faults source.new) }
    // The status is `WriteFault` only where the sink's count of faults rose in this call.
    ensures write_fault { result ≡ Status.WriteFault
        → Rose (K.faults sink.old) (K.faults sink.new) }
    // With a status other than `ReadFault` the source's count of faults stayed as it was.
    ensures read_calm { ¬ (result ≡ Status.ReadFault) → S.faults source.new ≡ S.faults source.old }
    // With a status other than `WriteFault` the sink's count of faults stayed as it was.
    ensures write_calm { ¬ (result ≡ Status.WriteFault) → K.faults sink.new ≡ K.faults sink.old }
    // With the status `ReadFault` or `NoMemory` nothing was written, and the sink stayed as it was.
    ensures unwritten { (result ≡ Status.ReadFault) ⊎ (result ≡ Status.NoMemory)
        → sink.new ≡ sink.old }
    // The source's count of faults didn't fall.
    ensures source_later { S.faults source.old ≤ S.faults source.new }
    // The sink's count of faults didn't fall.
    ensures sink_later { K.faults sink.old ≤ K.faults sink.new }
{
    selfcheck_watched(rt, alloc, words, source, &mut Unwatched, sink)
}

/// Does as [`selfcheck`], and shows an onlooker the table of the run that the command makes, when
/// the run has ended.
pub fn selfcheck_watched<R: Threads + Sync, S: Source, W: Onlooker, K: Sink>(
    rt: &R,
    alloc: Global,
    words: &[String],
    source: &mut S,
    watch: &mut W,
    sink: &mut K,
) -> Status
    // The status says which bytes were read and which were written: the whole output of the command
    // for the input, a prefix of it, or nothing. Where the command has made a run, the output is of
    // the one table that the onlooker was shown in this call. With any other output the onlooker
    // was shown nothing.
    ensures ends { EndsBy (IsSeenOutput words.now (W.shown watch.old) (W.shown watch.new)) words.now
        result (S.left source.old) (S.left source.new) (K.taken sink.old) (K.taken sink.new) }

    // For words that name no command the status is `Usage`, `WriteFault` or `NoMemory`, whatever
    // the input.
    ensures usage { IsNone (command_of words.now) →
        (result ≡ Status.Usage) ⊎ (result ≡ Status.WriteFault) ⊎ (result ≡ Status.NoMemory) }
    // For words that aren't handed to clap the status is `Usage` or `WriteFault`.
    ensures unparsed { ¬ IsTrue (is_parsed words.now) →
        (result ≡ Status.Usage) ⊎ (result ≡ Status.WriteFault) }
    // The source stays unread where the words don't name a command that reads it.
    ensures unread { ¬ IsSomeAnd (command_of words.now) (λ command. IsTrue (reads_source command))
        → source.new ≡ source.old }

    // Where all outputs of the command for the input have one status, that status is returned, or
    // `ReadFault`, `WriteFault` or `NoMemory`.
    ensures exact { (command : Command) (held : List ℕ) (status : Status)
        → command_of words.now ≡ Some command →
        S.left source.old ≡ Some held → HasOneStatus command (input_of command held) status →
        (result ≡ status) ⊎ IsUnfinished result }

    // For a command that makes a run over an object inside the world, with an input that it takes,
    // the status is `Fine`, or `ReadFault`, `WriteFault` or `NoMemory`.
    ensures right { (command : Command) (held : List ℕ) → command_of words.now ≡ Some command →
        S.left source.old ≡ Some held → IsTaken command (input_of command held) →
        RunsInside command (input_of command held) → (result ≡ Status.Fine) ⊎ IsUnfinished result }
    // For a soak the status is `Fine`, or `ReadFault`, `WriteFault` or `NoMemory`.
    ensures soak { (number : ℕ) → command_of words.now ≡ Some (Command.Soak number) →
        (result ≡ Status.Fine) ⊎ IsUnfinished result }

    // For an input that the command takes, where neither the source's nor the sink's count of
    // faults rose in this call, the status is `Fine`, `Found` or `NoMemory`.
    ensures complete { (command : Command) (held : List ℕ) → command_of words.now ≡ Some command →
        S.left source.old ≡ Some held → IsTaken command (input_of command held) →
        ¬ Rose (S.faults source.old) (S.faults source.new)
        → ¬ Rose (K.faults sink.old) (K.faults sink.new) →
        (result ≡ Status.Fine) ⊎ (result ≡ Status.Found) ⊎ (result ≡ Status.NoMemory) }

    // The status is `ReadFault` only where the source's count of faults rose in this call.
    ensures read_fault { result ≡ Status.ReadFault
        → Rose (S.faults source.old) (S.faults source.new) }
    // The status is `WriteFault` only where the sink's count of faults rose in this call.
    ensures write_fault { result ≡ Status.WriteFault
        → Rose (K.faults sink.old) (K.faults sink.new) }
    // With a status other than `ReadFault` the source's count of faults stayed as it was.
    ensures read_calm { ¬ (result ≡ Status.ReadFault) → S.faults source.new ≡ S.faults source.old }
    // With a status other than `WriteFault` the sink's count of faults stayed as it was.
    ensures write_calm { ¬ (result ≡ Status.WriteFault) → K.faults sink.new ≡ K.faults sink.old }
    // With the status `ReadFault` or `NoMemory` nothing was written, and the sink stayed as it was.
    ensures unwritten { (result ≡ Status.ReadFault) ⊎ (result ≡ Status.NoMemory)
        → sink.new ≡ sink.old }
    // The source's count of faults didn't fall.
    ensures source_later { S.faults source.old ≤ S.faults source.new }
    // The sink's count of faults didn't fall.
    ensures sink_later { K.faults sink.old ≤ K.faults sink.new }
{
    let named = match Command::from_words(alloc, words) {
        Ok(named) => named,
        Err(NoMemory) => return Status::NoMemory,
    };
    let Some(command) = named else {
        return write_text(sink, Status::Usage, USAGE);
    };
    match read_for(command, alloc, source) {
        Ok(bytes) => answer(rt, alloc, command, &bytes, watch, sink),
        Err(ReadAllError::Fault) => Status::ReadFault,
        Err(ReadAllError::NoMemory) => Status::NoMemory,
    }
}
