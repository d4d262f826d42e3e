ghost use Rattle.std.specs.Prelude.{◌≡◌, [], ◌∷◌, MatchOption};
ghost use Rattle.text_fields.specs.Lines.{words_of};

use crate::cut_at::cut_at;
use std::marker::Model;

/// The words of a line, one after the other: the parts into which each of its spaces cuts it.
///
/// Clauses see it as the list of the words that are left.
#[derive(Drop)]
pub struct Words<'a> {
    rest: &'a [u8],
    ended: bool,
}

impl<'a> Model for Words<'a> {
    ghost use Rattle.std.specs.Prelude.{List, ℕ, [], if◌then◌else◌};
    ghost use Rattle.text_fields.specs.Lines.{words_of};

    ghost Value = { List (List ℕ) };

    ghost view = { λ words. if words.ended then [] else words_of words.rest.now };
}

impl<'a> Words<'a> {
    /// The words of this line.
    pub fn new(line: &'a [u8]) -> Words<'a>
        ensures { result ≡ words_of line.now }
    {
        Words {
            rest: line,
            ended: false,
        }
    }

    /// The next word, or `None` exactly at the end of the line.
    pub fn next(&mut self) -> Option<&'a [u8]>
        ensures { MatchOption result ((self.old ≡ []) × (self.new ≡ []))
            (λ word. self.old ≡ word.now ∷ self.new) }
    {
        if self.ended {
            return None;
        }
        match cut_at(b' ', self.rest) {
            None => {
                self.ended = true;
                Some(self.rest)
            }
            Some((word, rest)) => {
                self.rest = rest;
                Some(word)
            }
        }
    }

    /// A copy of the cursor, to look ahead with.
    pub fn copy(&self) -> Words<'a>
        ensures { result ≡ self.now }
    {
        Words {
            rest: self.rest,
            ended: self.ended,
        }
    }
}
