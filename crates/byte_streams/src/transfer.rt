ghost use Rattle.std.specs.Prelude.{◌≡◌, ◌⊎◌, ℕ, ◌+◌, ◌<◌, ◌≤◌, ◌++◌, List, length, IfOk, OnOk, OnErr, IsErrOf, vec_len};
ghost use Rattle.std.specs.Io.KnownBytes.{Consumes, Appends, IsAtEnd};
ghost use Rattle.byte_streams.specs.Fault.{Rose};
ghost use Rattle.byte_streams.specs.Told.{HasRead, AppendsPart};

use crate::INPUT_LIMIT;
use crate::failed::{Failed, ReadAllError};
use crate::sink::Sink;
use crate::source::Source;
use crate::status::Status;
use std::alloc::Global;

/// The greatest number of bytes that one read asks for.
const PIECE: usize = 4096;

/// Reads once, into the piece, and appends the bytes that were read to `bytes`. The answer is how
/// many were read: 0 only at the end of input.
fn read_more<S: Source>(
    source: &mut S,
    bytes: &mut Vec<u8>,
    piece: &mut [u8],
) -> Result<usize, ReadAllError>
    requires { 0 < length piece.old }
    ensures bound { IfOk result (λ count. count ≤ length piece.old) }
    ensures bytes { IfOk result (λ count. (given : List ℕ) × (length given ≡ count)
        × (bytes.new.items ≡ bytes.old.items ++ given)
        × Consumes (S.left source.old) (S.left source.new) given) }
    ensures end { IfOk result (λ count. count ≡ 0 → IsAtEnd (S.left source.new)) }
    ensures err { OnErr result
        ((given : List ℕ) × Consumes (S.left source.old) (S.left source.new) given) }
    ensures later { S.faults source.old ≤ S.faults source.new }
    ensures cause { IsErrOf result ReadAllError.Fault
        → Rose (S.faults source.old) (S.faults source.new) }
    ensures calm { ¬ IsErrOf result ReadAllError.Fault → S.faults source.new ≡ S.faults source.old }
{
    let count = source.read(piece)?;
    bytes.extend_from_slice(&piece[..count])?;
    Ok(count)
}

/// Reads a source to its end, or until one byte more than [`INPUT_LIMIT`] was read.
pub fn read_all<S: Source>(alloc: Global, source: &mut S) -> Result<Vec<u8>, ReadAllError>
    // Where the source tells its bytes, the answer is all bytes that it had, or the first
    // `INPUT_LIMIT` + 1 of them where it had more, and the source has the other bytes left.
    ensures read { IfOk result
        (λ bytes. HasRead (S.left source.old) (S.left source.new) bytes.items) }
    // At most `INPUT_LIMIT` + 1 bytes are answered.
    ensures bound { IfOk result (λ bytes. length bytes.items ≤ INPUT_LIMIT + 1) }

    // After an error the source has a suffix of its bytes left.
    ensures err { OnErr result
        ((given : List ℕ) × Consumes (S.left source.old) (S.left source.new) given) }
    // The source's count of faults is at least what it was before.
    ensures later { S.faults source.old ≤ S.faults source.new }
    // An answer `Fault` comes only where the source's count of faults rose in this call.
    ensures cause { IsErrOf result ReadAllError.Fault
        → Rose (S.faults source.old) (S.faults source.new) }
    // An answer other than `Fault` comes only where the source's count of faults stayed.
    ensures calm { ¬ IsErrOf result ReadAllError.Fault → S.faults source.new ≡ S.faults source.old }
{
    let mut bytes = Vec::new(alloc);
    let mut piece = [0; PIECE];
    while bytes.len() <= INPUT_LIMIT {
        let room = INPUT_LIMIT + 1 - bytes.len();
        if read_more(source, &mut bytes, &mut piece[..room.min(PIECE)])? == 0 {
            break;
        }
    }
    Ok(bytes)
}

/// Writes a whole text: each write is offered all that is left of it.
pub fn write_all<K: Sink>(sink: &mut K, text: &[u8]) -> Result<(), Failed>
    // After an answer Ok the sink has taken the whole text.
    ensures whole { OnOk result (Appends (K.taken sink.old) (K.taken sink.new) text.now) }
    // After an error the sink has taken a prefix of the text, and not all of it.
    ensures part { OnErr result (AppendsPart (K.taken sink.old) (K.taken sink.new) text.now) }
    // The sink's count of faults is at least what it was before.
    ensures later { K.faults sink.old ≤ K.faults sink.new }
    // An error comes only where the sink's count of faults rose in this call.
    ensures cause { OnErr result (Rose (K.faults sink.old) (K.faults sink.new)) }
    // An answer Ok comes only where the sink's count of faults stayed.
    ensures calm { OnOk result (K.faults sink.new ≡ K.faults sink.old) }
{
    let mut at = 0;
    while at < text.len() {
        let count = sink.write(&text[at..])?;
        if count == 0 {
            return Err(Failed);
        }
        at += count;
    }
    Ok(())
}

/// Writes a text, and answers `status` where the sink took all of it, and else `WriteFault`.
pub fn write_text<K: Sink>(sink: &mut K, status: Status, text: &[u8]) -> Status
    // The status is answered where the sink took the whole text; `WriteFault` is answered where the
    // sink took a prefix of it, and its count of faults rose.
    ensures written { ((result ≡ status) × Appends (K.taken sink.old) (K.taken sink.new) text.now)
        ⊎ ((result ≡ Status.WriteFault) × AppendsPart (K.taken sink.old) (K.taken sink.new) text.now
        × Rose (K.faults sink.old) (K.faults sink.new)) }
    // The sink's count of faults is at least what it was before.
    ensures later { K.faults sink.old ≤ K.faults sink.new }
    // A status other than `WriteFault` is answered only where the sink's count of faults stayed.
    ensures calm { ¬ (result ≡ Status.WriteFault) → K.faults sink.new ≡ K.faults sink.old }
{
    match write_all(sink, text) {
        Ok(()) => status,
        Err(Failed) => Status::WriteFault,
    }
}
