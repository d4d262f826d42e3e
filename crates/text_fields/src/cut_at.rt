ghost use Rattle.std.specs.Prelude.{◌≡◌, ◌==◌, position, option_map};
ghost use Rattle.text_fields.specs.Lines.{cut_at as cut_at_lem};

/// Bytes cut at the first place of a given byte: the bytes before it and the bytes after it; `None`
/// where the byte isn't among them.
pub(crate) fn cut_at(byte: u8, bytes: &[u8]) -> Option<(&[u8], &[u8])>
    ensures { option_map (λ parts. (parts.0.now, parts.1.now)) result ≡ cut_at_lem byte bytes.now }
{
    match place_of(byte, bytes) {
        None => None,
        Some(i) => Some((&bytes[..i], &bytes[i + 1..])),
    }
}

fn place_of(byte: u8, bytes: &[u8]) -> Option<usize>
    ensures { result ≡ position (λ b. b == byte) bytes.now }
{
    bytes.iter().position(|b| *b == byte)
}
