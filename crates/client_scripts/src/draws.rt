//! Draws by number: the same key and number give the same draw, whoever asks and in which order.

ghost use Rattle.std.specs.Prelude.{◌≡◌};
ghost use Rattle.client_scripts.specs.Draws.{key_of, turned, squared, drawn};

/// The key under which the draws of a seed are made. Its bits are mixed even where the seed is
/// small.
pub fn key_of(seed: u64) -> u64
    ensures { result ≡ key_of seed }
{
    seed.wrapping_mul(0x9e37_79b9_7f4a_7c15)
        .wrapping_add(0xd1b5_4a32_d192_ed03)
}

/// The draw with this number under a key: four rounds of the squares generator (Widynski 2020).
pub fn draw(key: u64, number: u64) -> u32
    ensures { result ≡ drawn key number }
{
    let first = key.wrapping_mul(number);
    let second = first.wrapping_add(key);
    let one = turned(squared(first, first));
    let two = turned(squared(one, second));
    let three = turned(squared(two, first));
    (squared(three, second) / (1 << 32)) as u32
}

/// The square of a word plus a second word, modulo 2^64.
fn squared(word: u64, more: u64) -> u64
    ensures { result ≡ squared word more }
{
    word.wrapping_mul(word).wrapping_add(more)
}

/// A word with its two halves exchanged.
fn turned(word: u64) -> u64
    ensures { result ≡ turned word }
{
    (word % (1 << 32)) * (1 << 32) + word / (1 << 32)
}
