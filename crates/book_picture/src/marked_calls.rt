ghost use Rattle.std.specs.Prelude.{◌≡◌};
ghost use Rattle.book_picture.specs.MarkedCalls.{numbers_in, is_named, is_marked};
ghost use Rattle.book_picture.specs.Titles.{marks_text};

use book_base::Call;

/// Which calls of a picture are marked, or why none are.
#[derive(Debug, Drop)]
pub enum MarkedCalls {
    /// No calls are marked, and the picture says nothing of marks.
    Unasked,
    /// The calls of a smaller book that has no legal order either are marked: for each caller,
    /// their numbers.
    Smaller(Vec<Vec<u64>>),
    /// No calls are marked, since the book has too many calls for a smaller book to be sought.
    TooLarge,
    /// No calls are marked, since there was no memory for a smaller book.
    NoMemory,
}

impl MarkedCalls {
    /// Whether a call is marked.
    pub(crate) fn has(&self, call: Call) -> bool
        ensures { result ≡ is_marked self.now call }
    {
        match self {
            MarkedCalls::Unasked => false,
            MarkedCalls::Smaller(numbers) => is_named(numbers, call),
            MarkedCalls::TooLarge => false,
            MarkedCalls::NoMemory => false,
        }
    }

    /// What the title of a picture says of its marks.
    pub(crate) fn remark(&self) -> &'static str
        ensures { result.now ≡ marks_text self.now }
    {
        match self {
            MarkedCalls::Unasked => "",
            MarkedCalls::Smaller(_) => ", nor those of the marked calls alone",
            MarkedCalls::TooLarge => " (so many calls: none are marked)",
            MarkedCalls::NoMemory => " (no memory: none are marked)",
        }
    }
}

// Whether the number of a call is in the list of its caller, where `numbers` has a list for each
// caller.
fn is_named(numbers: &[Vec<u64>], call: Call) -> bool
    ensures { result ≡ is_named (numbers_in numbers.now) call }
{
    let caller = call.caller as usize;
    if caller < numbers.len() {
        numbers[caller].contains(&call.number)
    } else {
        false
    }
}
