use std::alloc::{AllocError, Global};

/// Cuts bytes into pieces, each of which ends with its separator, except perhaps the last.
pub fn cut_at(alloc: Global, bytes: &[u8], separators: &[u8]) -> Result<Vec<Vec<u8>>, AllocError> {
    let mut pieces = Vec::new(alloc);
    let mut piece = Vec::new(alloc);
    for byte in bytes {
        piece.push(*byte)?;
        if separators.contains(byte) {
            pieces.push(piece)?;
            piece = Vec::new(alloc);
        }
    }
    if !piece.is_empty() {
        pieces.push(piece)?;
    }
    Ok(pieces)
}

/// Puts pieces together again.
pub fn join(alloc: Global, pieces: &[Vec<u8>]) -> Result<Vec<u8>, AllocError> {
    let mut bytes = Vec::new(alloc);
    for piece in pieces {
        bytes.extend_from_slice(piece)?;
    }
    Ok(bytes)
}
