ghost use Rattle.std.specs.Prelude.{◌≡◌};

use crate::failed::Failed;
use crate::sink::Sink;
use std::io;
use std::io::{Printer, Write};

/// A sink over a writer. It counts the writes that failed, or that took nothing of a piece that
/// isn't empty. It tells the bytes that it has taken where the writer tells them.
#[derive(Debug, Drop)]
pub struct StdSink<W> {
    output: W,
    faults: u64,
}

impl<W: Write> StdSink<W> {
    /// A sink over a writer.
    pub fn over(output: W) -> StdSink<W>
        // The sink has taken what the writer holds.
        ensures held { ⟦<StdSink<W> as Sink>⟧.taken result ≡ ⟦<W as Write>⟧.contents output }
        // The sink has counted no fault.
        ensures no_fault { ⟦<StdSink<W> as Sink>⟧.faults result ≡ 0 }
    {
        StdSink { output, faults: 0 }
    }
}

impl<'a, R: Print> StdSink<Printer<'a, R>> {
    /// A sink over the runtime's standard output.
    pub fn new(rt: &'a R) -> StdSink<Printer<'a, R>>
        // The sink has counted no fault.
        ensures no_fault { ⟦<StdSink<Printer<'a, R>> as Sink>⟧.faults result ≡ 0 }
    {
        StdSink::over(io::writer(rt))
    }
}

impl<W: Write> Sink for StdSink<W> {
    ghost taken = { λ s. ⟦<W as Write>⟧.contents s.output };

    ghost faults = { λ s. s.faults };

    fn write(&mut self, piece: &[u8]) -> Result<usize, Failed> {
        match self.output.write(piece) {
            Ok(count) if count > 0 || piece.is_empty() => Ok(count),
            _ => {
                self.faults = self.faults.saturating_add(1);
                Err(Failed)
            }
        }
    }
}
