//! The lines of a log. The last one may lack its line feed.

ghost use Rattle.std.specs.Prelude.{◌≡◌, ◌≢◌, ◌+◌, ◌<◌, ◌^◌, ℕ, [], ◌∷◌, length, take, drop, IfSome, IfNone, OnSome};
ghost use Rattle.std.specs.List.{list_all};
ghost use Rattle.history_text.specs.Lines.{Line, is_blank, line_and, lines_from, lines_of};

/// The lines of a log, one after another, each with its number, counted from 1.
#[derive(Drop)]
pub struct LogLines<'a> {
    rest: &'a [u8],
    number: u64,
}

// Whether a line is blank.
fn is_blank_line(line: &[u8]) -> bool
    ensures { result ≡ list_all is_blank line.now }
{
    line.iter()
        .all(|byte| *byte == b' ' || *byte == b'\t' || *byte == b'\r')
}

// The place of the line feed that ends the first line, where one does.
fn line_end(text: &[u8]) -> Option<usize>
    ensures inside { IfSome result (λ end. end < length text.now) }
    ensures ended { IfSome result (λ end. (number : ℕ) → lines_from number [] text.now
        ≡ line_and number (take end text.now)
        (lines_from (number + 1) [] (drop (end + 1) text.now))) }
    ensures last { IfNone result ((number : ℕ) → lines_from number [] text.now
        ≡ line_and number text.now []) }
{
    for (at, byte) in text.iter().enumerate() {
        if *byte == b'\n' {
            return Some(at);
        }
    }
    None
}

impl<'a> LogLines<'a> {
    /// The lines of these bytes.
    pub fn new(bytes: &'a [u8]) -> LogLines<'a>
        ensures fits { result.number + length result.rest.now < 2 ^ 64 }
        ensures lines { lines_from (result.number + 1) [] result.rest.now ≡ lines_of bytes.now }
    {
        LogLines {
            rest: bytes,
            number: 0,
        }
    }

    /// The next line that isn't blank, with its number.
    pub fn next(&mut self) -> Option<(u64, &'a [u8])>
        requires { self.old.number + length self.old.rest.now < 2 ^ 64 }
        ensures fits { self.new.number + length self.new.rest.now < 2 ^ 64 }
        ensures line { IfSome result (λ line. lines_from (self.old.number + 1) [] self.old.rest.now
            ≡ record { number = line.0; bytes = line.1.now }
            ∷ lines_from (self.new.number + 1) [] self.new.rest.now) }
        ensures less { OnSome result (length self.new.rest.now < length self.old.rest.now) }
        ensures none { IfNone result
            (lines_from (self.old.number + 1) [] self.old.rest.now ≡ []) }
    {
        while !self.rest.is_empty() {
            let line = self.take();
            if !is_blank_line(line) {
                return Some((self.number, line));
            }
        }
        None
    }

    // Takes the next line, which is all that is left where no line feed is.
    fn take(&mut self) -> &'a [u8]
        requires fits { self.old.number + length self.old.rest.now < 2 ^ 64 }
        requires some { 0 < length self.old.rest.now }
        ensures fits { self.new.number + length self.new.rest.now < 2 ^ 64 }
        ensures number { self.new.number ≡ self.old.number + 1 }
        ensures less { length self.new.rest.now < length self.old.rest.now }
        ensures line { lines_from (self.old.number + 1) [] self.old.rest.now
            ≡ line_and (self.old.number + 1) result.now
            (lines_from (self.new.number + 1) [] self.new.rest.now) }
    {
        let text = self.rest;
        self.number += 1;
        match line_end(text) {
            None => {
                self.rest = &text[text.len()..text.len()];
                text
            }
            Some(end) => {
                self.rest = &text[end + 1..text.len()];
                &text[0..end]
            }
        }
    }
}
