ghost use Rattle.std.specs.Prelude.{◌≡◌};
ghost use Rattle.book_base.specs.OperationWord.{low_of, high_of, joined};

/// An operation word: what a call asks of the object. It is written as a low and a high word of 64
/// bits.
pub type OpWord = u128;

// How many values a word of 64 bits has.
const WORDS: OpWord = 1 << 64;

/// The low word of an operation word.
pub fn low(op: OpWord) -> u64
    ensures { result ≡ low_of op }
{
    (op % WORDS) as u64
}

/// The high word of an operation word.
pub fn high(op: OpWord) -> u64
    ensures { result ≡ high_of op }
{
    (op / WORDS) as u64
}

/// The operation word that has this low and this high word.
pub fn join(low: u64, high: u64) -> OpWord
    ensures { result ≡ joined low high }
{
    OpWord::from(low) + OpWord::from(high) * WORDS
}
