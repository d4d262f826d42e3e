//! A source, line by line.

ghost use Rattle.std.specs.Prelude.{◌≡◌, ◌≢◌, ℕ, ◌+◌, ◌-◌, ◌<◌, ◌≤◌, ◌==◌, true, false, List, [], ◌++◌, take, drop, length, position, IfOk, OnOk, OnErr};
ghost use Rattle.std.specs.Result.{IsErrOf};
ghost use Rattle.std.specs.Io.KnownBytes.{Consumes, IsAtEnd};
ghost use Rattle.byte_streams.specs.Fault.{Rose};
ghost use Rattle.byte_streams.specs.declared.failed.ReadAllError.{ReadAllError};
ghost use Rattle.stream_text.specs.declared.TheConstants.{LINE_LIMIT};
ghost use Rattle.stream_text.specs.Source.{IsNextOf, IsLast, IsPartOf, IsWholeLine};

use crate::LINE_LIMIT;
use book_base::NoMemory;
use byte_streams::{Failed, ReadAllError, Source};
use std::alloc::{AllocError, Global};
use std::marker::Model;

/// The greatest number of bytes that one read asks for.
const PIECE: usize = 65536;

/// What comes next of a source.
#[derive(Clone, Copy, Debug, PartialEq, Eq)]
pub enum NextLine {
    /// A line, which [`LineSource::line`] has.
    Line,
    /// The end of the source, right after a line feed or at its beginning.
    End,
    /// The end of the source within a line.
    Cut,
    /// A line with more bytes than a line may have.
    Long,
}

/// The lines of a source, one after the other. Its memory doesn't grow.
#[derive(Drop)]
pub struct LineSource {
    piece: Vec<u8>,
    from: usize,
    to: usize,
    line: Vec<u8>,
}

impl Model for LineSource {
    ghost use Rattle.std.specs.Prelude.{◌≤◌, ◌<◌, length, drop, take};
    ghost use Rattle.stream_text.specs.Source.{Held};

    ghost Value = { Held };

    ghost view = { λ s. record {
      bytes = drop s.from (take s.to s.piece.items);
      line = s.line.items;
    } };

    ghost invariant = { λ s. (s.from ≤ s.to) × (s.to ≤ length s.piece.items)
        × (0 < length s.piece.items) };
}

impl LineSource {
    /// The lines of a source of which nothing was read.
    pub fn new(alloc: Global) -> Result<LineSource, NoMemory>
        ensures { IfOk result (λ lines. lines ≡ record { bytes = []; line = [] }) }
    {
        let mut piece = Vec::with_capacity(alloc, PIECE)?;
        piece.resize(PIECE, 0)?;
        Ok(LineSource {
            piece,
            from: 0,
            to: 0,
            line: Vec::with_capacity(alloc, LINE_LIMIT + 1)?,
        })
    }

    /// The line that was read last, without its line feed.
    pub fn line(&self) -> &[u8]
        ensures { result.now ≡ self.now.line }
    {
        &self.line
    }

    /// Reads the next line of the source.
    pub fn next<S: Source>(&mut self, source: &mut S) -> Result<NextLine, ReadAllError>
        // The answer is what comes next of the bytes that were held and those that were read.
        ensures next { IfOk result (λ next. (given : List ℕ)
            × Consumes (S.left source.old) (S.left source.new) given
            × IsNextOf (self.old.bytes ++ given) next self.new) }
        // The end is answered only where the source is at its end.
        ensures end { IfOk result (λ next. IsLast next → IsAtEnd (S.left source.new)) }
        // After an error the source has a suffix of its bytes left.
        ensures err { OnErr result
            ((given : List ℕ) × Consumes (S.left source.old) (S.left source.new) given) }
        // The source's count of faults is at least what it was before.
        ensures later { S.faults source.old ≤ S.faults source.new }
        // An answer `Fault` comes only where the source's count of faults rose in this call.
        ensures cause { IsErrOf result ReadAllError.Fault
            → Rose (S.faults source.old) (S.faults source.new) }
        // An answer other than `Fault` comes only where the source's count of faults stayed.
        ensures calm { ¬ IsErrOf result ReadAllError.Fault
            → S.faults source.new ≡ S.faults source.old }
    {
        self.line.clear();
        while self.line.len() <= LINE_LIMIT {
            if !self.refill(source)? {
                return Ok(self.at_end());
            }
            if self.take_part()? {
                return Ok(NextLine::Line);
            }
        }
        Ok(NextLine::Long)
    }

    // What the end of the source is, by the line so far.
    fn at_end(&self) -> NextLine
        requires held { self.now.bytes ≡ [] }
        requires whole { IsWholeLine self.now.line }
        ensures next { IsNextOf self.now.line result self.now }
    {
        if self.line.is_empty() {
            NextLine::End
        } else {
            NextLine::Cut
        }
    }

    // Sees to it that bytes are held, and answers whether there are any.
    fn refill<S: Source>(&mut self, source: &mut S) -> Result<bool, Failed>
        ensures given { IfOk result (λ some. (given : List ℕ)
            × Consumes (S.left source.old) (S.left source.new) given
            × (self.new.bytes ≡ self.old.bytes ++ given)) }
        ensures some { IfOk result (λ some. some ≡ true → self.new.bytes ≢ []) }
        ensures end { IfOk result (λ some. some ≡ false
            → (self.new.bytes ≡ []) × IsAtEnd (S.left source.new)) }
        ensures err { OnErr result (Consumes (S.left source.old) (S.left source.new) []) }
        ensures line { self.new.line ≡ self.old.line }
        ensures later { S.faults source.old ≤ S.faults source.new }
        ensures cause { OnErr result (Rose (S.faults source.old) (S.faults source.new)) }
        ensures calm { OnOk result (S.faults source.new ≡ S.faults source.old) }
    {
        if self.from < self.to {
            return Ok(true);
        }
        Ok(self.fill(source)? > 0)
    }

    // Reads a piece, where nothing is held, and answers how many bytes it has.
    fn fill<S: Source>(&mut self, source: &mut S) -> Result<usize, Failed>
        requires { self.old.bytes ≡ [] }
        ensures given { IfOk result (λ count. (length self.new.bytes ≡ count)
            × Consumes (S.left source.old) (S.left source.new) self.new.bytes) }
        ensures end { IfOk result (λ count. count ≡ 0 → IsAtEnd (S.left source.new)) }
        ensures err { OnErr result (Consumes (S.left source.old) (S.left source.new) []) }
        ensures line { self.new.line ≡ self.old.line }
        ensures later { S.faults source.old ≤ S.faults source.new }
        ensures cause { OnErr result (Rose (S.faults source.old) (S.faults source.new)) }
        ensures calm { OnOk result (S.faults source.new ≡ S.faults source.old) }
    {
        let count = source.read(&mut self.piece)?;
        self.from = 0;
        self.to = count;
        Ok(count)
    }

    // Takes held bytes up to a line feed, as many as a line may have and one more, and answers
    // whether the line feed came.
    fn take_part(&mut self) -> Result<bool, AllocError>
        requires some { self.old.bytes ≢ [] }
        requires short { length self.old.line ≤ LINE_LIMIT }
        ensures part { IfOk result (λ ended. (part : List ℕ)
            × IsPartOf self.old.bytes (LINE_LIMIT - length self.old.line) ended part self.new.bytes
            × (self.new.line ≡ self.old.line ++ part)) }
    {
        let left = &self.piece[self.from..self.to];
        let (taken, ended) = part_of(left, LINE_LIMIT - self.line.len());
        self.line.extend_from_slice(&left[..taken])?;
        self.from += if ended { taken + 1 } else { taken };
        Ok(ended)
    }
}

// How many bytes come before a line feed, but at most one more than a number, and whether the line
// feed comes then.
fn part_of(left: &[u8], most: usize) -> (usize, bool)
    requires some { left.now ≢ [] }
    requires most { most ≤ LINE_LIMIT }
    ensures within { result.0 ≤ length left.now }
    ensures ended { result.1 ≡ true → (result.0 < length left.now) × IsPartOf left.now most true
        (take result.0 left.now) (drop (result.0 + 1) left.now) }
    ensures more { result.1 ≡ false
        → IsPartOf left.now most false (take result.0 left.now) (drop result.0 left.now) }
{
    match feed_at(left) {
        Some(end) => {
            if end <= most {
                (end, true)
            } else {
                (most + 1, false)
            }
        }
        None => (left.len().min(most + 1), false),
    }
}

// Where the first line feed is.
fn feed_at(bytes: &[u8]) -> Option<usize>
    ensures { result ≡ position (λ byte. byte == 10) bytes.now }
{
    bytes.iter().position(|byte| *byte == b'\n')
}
