ghost use Rattle.std.specs.Prelude.{◌≡◌, ℕ, ◌≤◌, true, false};
ghost use Rattle.book_base.specs.declared.TheConstants.{MAX_CALLERS, MAX_CALLS};
ghost use Rattle.world_core.specs.Shape.{Meaning};

use book_base::{MAX_CALLERS, MAX_CALLS};

/// How an object works inside the world. A program is a value that a world keeps and never changes.
///
/// Its meaning, for `n` callers and a cap, says how many object words there are, which step a
/// caller may make on one of them, and which reply a caller may get. The last two depend on the
/// caller's number and on its local.
pub trait Program: Copy {
    ghost meaning: { Self → ℕ → ℕ → Meaning };

    /// How many object words a world of `n` callers with `cap` rows each has: at most 65536.
    fn object_words(&self, n: u32, cap: u64) -> u64
        // There is at least one caller.
        requires some_callers { 1 ≤ n }
        // There are at most `MAX_CALLERS` callers.
        requires few_callers { n ≤ MAX_CALLERS }
        // Each caller may make at least one call.
        requires some_calls { 1 ≤ cap }
        // Each caller may make at most `MAX_CALLS` calls.
        requires few_calls { cap ≤ MAX_CALLS }
        // The answer is the number of object words that the program's meaning says.
        ensures count { result ≡ (meaning self.now n cap).objects }
        // There are at most 65536 object words.
        ensures few { result ≤ 65536 };
}

/// A program whose object is inside the world: its callers make their steps on object words.
pub trait InWorld: Program {}

/// The program of an object outside the world: there are no object words, no steps on them, and
/// every reply is allowed.
#[derive(Clone, Copy, Debug, PartialEq, Eq)]
pub struct Outside;

impl Program for Outside {
    ghost use Rattle.world_core.specs.Programs.{outside};

    ghost meaning = { λ program n cap. outside };

    fn object_words(&self, _n: u32, _cap: u64) -> u64 {
        0
    }
}

/// A program for tests: there is one object word, and every step on it and every reply is allowed.
#[derive(Clone, Copy, Debug, PartialEq, Eq)]
pub struct Scrap;

impl Program for Scrap {
    ghost use Rattle.world_core.specs.Programs.{scrap};

    ghost meaning = { λ program n cap. scrap };

    fn object_words(&self, _n: u32, _cap: u64) -> u64 {
        1
    }
}

impl InWorld for Scrap {}
