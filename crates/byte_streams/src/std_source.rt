ghost use Rattle.std.specs.Prelude.{◌≡◌};

use crate::failed::Failed;
use crate::source::Source;
use std::io::Read;

/// A source over standard input, which counts the reads that failed. It tells the bytes that are
/// left where its reader tells them.
#[derive(Debug, Drop)]
pub struct StdSource<I> {
    input: I,
    faults: u64,
}

impl<I: Read> StdSource<I> {
    /// A source over the runtime's standard input.
    pub fn new<R: Input<Reader = I>>(rt: &R) -> StdSource<I>
        // The source has counted no fault.
        ensures no_fault { ⟦<StdSource<I> as Source>⟧.faults result ≡ 0 }
    {
        StdSource {
            input: rt.reader(),
            faults: 0,
        }
    }
}

impl<I: Read> Source for StdSource<I> {
    ghost left = { λ s. ⟦<I as Read>⟧.remaining s.input };

    ghost faults = { λ s. s.faults };

    fn read(&mut self, piece: &mut [u8]) -> Result<usize, Failed> {
        match self.input.read(piece) {
            Ok(count) => Ok(count),
            Err(_) => {
                self.faults = self.faults.saturating_add(1);
                Err(Failed)
            }
        }
    }
}
