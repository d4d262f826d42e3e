ghost use Rattle.std.specs.Prelude.{◌≡◌, nat_lt};
ghost use Rattle.text_fields.specs.Version.{version_word, most_callers, most_calls, has_kind, word_limit};

use crate::{FIRST_TEXT_CALLERS, FIRST_TEXT_CALLS, TEXT_CALLERS, TEXT_CALLS};
use book_base::OpWord;
use seq_objects::Kind;

/// The operation words of version 1 are below this number.
const FIRST_OPERATIONS: OpWord = 1 << 64;

/// A version of texts.
#[derive(Clone, Copy, Debug, PartialEq, Eq)]
pub enum Version {
    /// Version 1, whose texts are read but not written.
    First,
    /// Version 2.
    Second,
}

impl Version {
    /// The word for the version in a title.
    pub fn word(self) -> &'static [u8]
        ensures { result.now ≡ version_word self }
    {
        match self {
            Version::First => b"1",
            Version::Second => b"2",
        }
    }

    /// The greatest number of callers in texts of this version.
    pub fn most_callers(self) -> u64
        ensures { result ≡ most_callers self }
    {
        match self {
            Version::First => FIRST_TEXT_CALLERS,
            Version::Second => TEXT_CALLERS,
        }
    }

    /// The greatest number of calls of a caller in texts of this version.
    pub fn most_calls(self) -> u64
        ensures { result ≡ most_calls self }
    {
        match self {
            Version::First => FIRST_TEXT_CALLS,
            Version::Second => TEXT_CALLS,
        }
    }

    /// Whether texts of this version have a kind.
    pub fn has_kind(self, kind: Kind) -> bool
        ensures { result ≡ has_kind self kind }
    {
        match self {
            Version::First => kind.is_first(),
            Version::Second => true,
        }
    }

    /// Whether texts of this version have an operation word.
    pub fn has_word(self, op: OpWord) -> bool
        ensures { result ≡ nat_lt op (word_limit self) }
    {
        match self {
            Version::First => op < FIRST_OPERATIONS,
            Version::Second => true,
        }
    }
}
