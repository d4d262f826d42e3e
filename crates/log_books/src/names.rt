//! The values of a log and their numbers.

ghost use Rattle.std.specs.Prelude.{◌≡◌, ◌<◌, [], ◌∷◌, Some, false, length, slice_get, IfOk, IfSome};
ghost use Rattle.log_books.specs.Words.{names_of, KeepsNames, StandsFor};

use book_base::NoMemory;
use history_text::plain;
use indexmap::IndexSet;
use seq_objects::number;
use std::alloc::Global;

// The values of an object are below this number.
const VALUES: u64 = 1 << 32;

/// The values of a log, each with its number: a value's number is its place among all values so
/// far. Where values are numbers of their own, none has a name.
#[derive(Drop)]
pub struct Names<'a> {
    known: IndexSet<&'a [u8]>,
    numbered: bool,
}

impl<'a> Names<'a> {
    /// The names with the value that has the number 0.
    pub fn new(alloc: Global, numbered: bool, first: &'a [u8]) -> Result<Names<'a>, NoMemory>
        ensures numbered { IfOk result (λ names. names.numbered ≡ numbered) }
        ensures first { IfOk result (λ names. numbered ≡ false → names_of names ≡ first.entry.now ∷ []) }
    {
        let mut known = IndexSet::new(alloc);
        if !numbered {
            known.insert_full(first)?;
        }
        Ok(Names { known, numbered })
    }

    // The place of a value among those that have names, which it gets where it has none.
    fn place(&mut self, item: &'a [u8]) -> Result<usize, NoMemory>
        ensures numbered { self.new.numbered ≡ self.old.numbered }
        ensures keeps { KeepsNames (names_of self.old) (names_of self.new) }
        ensures at { IfOk result (λ n. slice_get (names_of self.new) n ≡ Some item.entry.now) }
    {
        Ok(self.known.insert_full(item)?.0)
    }

    /// The number of a value. `None` where it should be a number below 2^32 and isn't.
    pub fn number_of(&mut self, item: &'a [u8]) -> Result<Option<u64>, NoMemory>
        ensures numbered { self.new.numbered ≡ self.old.numbered }
        ensures keeps { KeepsNames (names_of self.old) (names_of self.new) }
        ensures stands { IfOk result (λ found. IfSome found
            (StandsFor self.new.numbered (names_of self.new) item.entry.now)) }
    {
        let found = if self.numbered {
            number(plain(item))
        } else {
            Some(self.place(item)? as u64)
        };
        match found {
            Some(number) if number < VALUES => Ok(Some(number)),
            _ => Ok(None),
        }
    }

    /// How many values have names.
    pub fn len(&self) -> usize
        ensures { result ≡ length (names_of self.now) }
    {
        self.known.len()
    }

    /// The name of the value with a number.
    pub fn name(&self, number: usize) -> &'a [u8]
        requires { number < length (names_of self.now) }
        ensures { slice_get (names_of self.now) number ≡ Some result.now }
    {
        self.known[number]
    }
}
