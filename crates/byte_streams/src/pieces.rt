ghost use Rattle.std.specs.Prelude.{◌≡◌, ◌++◌, length, min, take, drop};

/// Copies the first bytes into the piece, as many as `most` and both lengths allow, and answers how
/// many.
pub(crate) fn fill(piece: &mut [u8], bytes: &[u8], most: usize) -> usize
    ensures count { result ≡ min (min (length piece.old) most) (length bytes.now) }
    ensures piece { piece.new ≡ take result bytes.now ++ drop result piece.old }
    ensures given { bytes.now ≡ take result piece.new ++ drop result bytes.now }
{
    let count = piece.len().min(most).min(bytes.len());
    piece[..count].copy_from_slice(&bytes[..count]);
    count
}
