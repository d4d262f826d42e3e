//! A source, watched to its end.

ghost use Rattle.std.specs.Prelude.{◌≡◌, ◌⊎◌, ℕ, ◌++◌, ◌∷◌, [], List, IfSome, IfNone, Some};
ghost use Rattle.std.specs.Io.KnownBytes.{Appends, Consumes};
ghost use Rattle.byte_streams.specs.Told.{AppendsPart};
ghost use Rattle.stream_text.specs.Stream.{Said, Due};
ghost use Rattle.watch.specs.Output.{OutputLine, output_text};
ghost use Rattle.watch.specs.Timely.{IsPunctual};
ghost use Rattle.watch.specs.Ending.{IsRun, IsLastStep};
ghost use Rattle.watch.specs.Watching.{Holds};
ghost use Rattle.watch.specs.declared.ending.Ending.TheVariants as endings;
ghost use Rattle.watch.specs.declared.settings.Settings.{Settings};

use crate::ending::Ending;
use crate::settings::Settings;
use crate::watching::Watching;
use byte_streams::{ReadAllError, Sink, Source, write_all};
use std::alloc::Global;
use stream_text::LineSource;

/// Reads a stream, and writes what is said of it: `legal N` after each so many lines and at the
/// end, `unsure N` where a limit is met, `illegal N` for the first line with which the calls of an
/// object have no legal order any more, after which it reads no more, and why the stream is
/// refused. Where a limit is met while that line is looked for, it is `illegal M N`, and the line
/// is one of these.
pub fn watch_source<S: Source, K: Sink>(
    alloc: Global,
    settings: Settings,
    source: &mut S,
    sink: &mut K,
) -> Ending
    // What is written of the bytes that are read is right, and the answer says how it ends.
    ensures run { (given : List ℕ) × (written : List ℕ)
        × Consumes (S.left source.old) (S.left source.new) given
        × Appends (K.taken sink.old) (K.taken sink.new) written
        × IsRun settings given (S.left source.new) written result }
{
    let Ok(mut lines) = LineSource::new(alloc) else {
        return Ending::NoMemory;
    };
    let mut watching = Watching::new(alloc, settings);
    for _ in 0..u64::MAX {
        if let Some(ending) = advance(&mut watching, &mut lines, source, sink) {
            return ending;
        }
    }
    Ending::NoMemory
}

// Reads what comes next, and writes what is said then. The answer is how the watch ends, where it
// ends there.
fn advance<S: Source, K: Sink>(
    watching: &mut Watching,
    lines: &mut LineSource,
    source: &mut S,
    sink: &mut K,
) -> Option<Ending>
    ensures goes_on { IfNone result ((asked : Settings) (before : List (List ℕ))
        (due : Due) (said : Said)
        (output : List OutputLine) → Holds asked watching.old before due said output
        → watching.old.out.items ≡ [] → (given : List ℕ) × (line : List ℕ) × (due_after : Due)
        × (said_after : Said) × (more : List OutputLine)
        × Consumes (S.left source.old) (S.left source.new) given
        × Appends (K.taken sink.old) (K.taken sink.new) (output_text more)
        × (lines.old.bytes ++ given ≡ line ++ 10 ∷ lines.new.bytes)
        × (watching.new.out.items ≡ [])
        × Holds asked watching.new (before ++ line ∷ []) due_after said_after (output ++ more)
        × (IsPunctual asked said output → IsPunctual asked said_after (output ++ more))) }
    ensures ends { IfSome result (λ ending. (asked : Settings) (before : List (List ℕ)) (due : Due)
        (said : Said) (output : List OutputLine) → Holds asked watching.old before due said output
        → watching.old.out.items ≡ [] → (given : List ℕ) × (written : List ℕ)
        × Consumes (S.left source.old) (S.left source.new) given
        × Appends (K.taken sink.old) (K.taken sink.new) written
        × IsLastStep asked before output (lines.old.bytes ++ given) (S.left source.new) written
        ending) }
{
    let next = match lines.next(source) {
        Ok(next) => next,
        Err(ReadAllError::Fault) => return Some(Ending::ReadFault),
        Err(ReadAllError::NoMemory) => return Some(Ending::NoMemory),
    };
    match watching.step(next, lines.line()) {
        None => write_out(watching, sink, None),
        Some(ending) => {
            if ending.is_no_memory() {
                return Some(Ending::NoMemory);
            }
            write_out(watching, sink, Some(ending))
        }
    }
}

// Writes what is to be written, and answers how the watch ends, where it ends there.
fn write_out<K: Sink>(
    watching: &mut Watching,
    sink: &mut K,
    ending: Option<Ending>,
) -> Option<Ending>
    ensures written { ((result ≡ ending) × (watching.new.out.items ≡ [])
        × Appends (K.taken sink.old) (K.taken sink.new) watching.old.out.items)
        ⊎ ((result ≡ Some endings.WriteFault)
        × AppendsPart (K.taken sink.old) (K.taken sink.new) watching.old.out.items) }
    ensures same { watching.new ≡ record watching.old { out = watching.new.out } }
{
    if write_all(sink, &watching.out).is_err() {
        return Some(Ending::WriteFault);
    }
    watching.out.clear();
    ending
}
