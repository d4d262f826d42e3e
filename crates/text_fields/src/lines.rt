ghost use Rattle.std.specs.Prelude.{◌≡◌, ◌↔◌, [], IfOk, IfErr, IsTrue, Ok, Err};
ghost use Rattle.text_fields.specs.Lines.{Unread, line_at};

use crate::cut_at::cut_at;
use book_base::{TextFault, What};
use std::marker::Model;

/// The lines of a text, one after the other.
///
/// Clauses see it as the bytes that are left, and the number of the line that they begin with.
#[derive(Drop)]
pub struct Lines<'a> {
    rest: &'a [u8],
    number: u64,
}

impl<'a> Model for Lines<'a> {
    ghost use Rattle.std.specs.Prelude.{◌+◌, ◌<◌, ◌^◌, length};
    ghost use Rattle.text_fields.specs.Lines.{Unread};

    ghost Value = { Unread };

    ghost view = { λ lines. record { bytes = lines.rest.now; number = lines.number } };

    ghost invariant = { λ lines. lines.number + length lines.rest.now < 2 ^ 64 };
}

impl<'a> Lines<'a> {
    /// The lines of these bytes.
    pub fn new(bytes: &'a [u8]) -> Lines<'a>
        ensures { result ≡ record { bytes = bytes.now; number = 1 } }
    {
        Lines {
            rest: bytes,
            number: 1,
        }
    }

    /// The next line, without its line feed. Where no whole line is left, the answer is the fault
    /// `Cut`, and no byte is taken.
    pub fn line(&mut self) -> Result<&'a [u8], TextFault>
        // An answered line is what the bytes had before the first line feed, and is taken with it.
        ensures line { IfOk result (λ line. line_at self.old ≡ Ok (line.now, self.new)) }
        // An error comes only where no whole line is left: it is the fault `Cut` at this line, and
        // no byte is taken.
        ensures cut { IfErr result
            (λ fault. (line_at self.old ≡ Err fault) × (self.new ≡ self.old)) }
    {
        match cut_at(b'\n', self.rest) {
            None => Err(TextFault {
                line: self.number,
                what: What::Cut,
            }),
            Some((line, rest)) => {
                self.rest = rest;
                self.number += 1;
                Ok(line)
            }
        }
    }

    /// The number, counted from 1, of the line that the next call of [`Lines::line`] takes.
    pub fn number(&self) -> u64
        ensures { result ≡ self.now.number }
    {
        self.number
    }

    /// A copy of the cursor, to read ahead with.
    pub fn copy(&self) -> Lines<'a>
        ensures { result ≡ self.now }
    {
        Lines {
            rest: self.rest,
            number: self.number,
        }
    }

    /// Whether no byte is left.
    pub fn at_end(&self) -> bool
        ensures { IsTrue result ↔ (self.now.bytes ≡ []) }
    {
        self.rest.is_empty()
    }
}
