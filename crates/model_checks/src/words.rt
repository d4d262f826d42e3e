ghost use Rattle.std.specs.Prelude.{◌≡◌, ℕ, ◌^◌, ◌<◌};
ghost use Rattle.model_checks.specs.Words.{operation_word};

use book_base::{OpWord, join, low};

// How many numbers an operation may have, and the code of its word times as many.
const NUMBERS: u64 = 1 << 32;

/// The operation word of a number.
pub fn operation_word(number: u32) -> OpWord
    ensures { result ≡ operation_word number }
{
    join(NUMBERS + u64::from(number), 0)
}

/// The number of an operation word.
pub fn operation_number(op: OpWord) -> u32
    ensures { (number : ℕ) → number < 2 ^ 32 → op ≡ operation_word number → result ≡ number }
{
    (low(op) % NUMBERS) as u32
}
