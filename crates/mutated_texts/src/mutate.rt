ghost use Rattle.std.specs.Prelude.{◌<◌, length};

use crate::pieces::{cut_at, join};
use crate::words::{MARKS, NUMBERS, WORDS};
use rand_core::Rng;
use std::alloc::{AllocError, Global};

/// The greatest number of changes of one text.
const MOST_CHANGES: usize = 3;

/// A random number below a bound.
pub fn pick<R: Rng>(rng: &mut R, bound: usize) -> usize
    requires { 0 < bound }
    ensures { result < bound }
{
    (rng.next_u64() % bound as u64) as usize
}

/// A copy of a text with one to three random changes: of bytes, words or lines.
pub fn mutate<R: Rng>(alloc: Global, rng: &mut R, text: &[u8]) -> Result<Vec<u8>, AllocError> {
    let mut bytes = text.to_vec(alloc)?;
    let more = pick(rng, MOST_CHANGES) * pick(rng, 2);
    for _ in 0..=more {
        bytes = change(alloc, rng, bytes)?;
    }
    Ok(bytes)
}

// Makes one random change of a text. An empty text stays empty.
fn change<R: Rng>(alloc: Global, rng: &mut R, mut bytes: Vec<u8>) -> Result<Vec<u8>, AllocError> {
    if bytes.is_empty() {
        return Ok(bytes);
    }
    match pick(rng, 20) {
        0..=5 => change_digit(rng, &mut bytes),
        6..=8 => change_byte(rng, &mut bytes)?,
        9 => bytes.truncate(pick(rng, bytes.len())),
        10..=12 => return change_pieces(alloc, rng, &bytes, b"\n"),
        13..=14 => return change_pieces(alloc, rng, &bytes, b" \n"),
        _ => return change_word(alloc, rng, &bytes),
    }
    Ok(bytes)
}

// Writes a random digit in place of the first digit from a random place on, where there is one.
fn change_digit<R: Rng>(rng: &mut R, bytes: &mut [u8])
    requires { 0 < length bytes.old }
{
    let place = pick(rng, bytes.len());
    let digit = b"0123456789"[pick(rng, 10)];
    if let Some(byte) = bytes
        .iter_mut()
        .skip(place)
        .find(|byte| byte.is_ascii_digit())
    {
        *byte = digit;
    }
}

// Changes a byte to another one, removes one, or inserts one.
fn change_byte<R: Rng>(rng: &mut R, bytes: &mut Vec<u8>) -> Result<(), AllocError>
    requires { 0 < length bytes.old.items }
{
    let place = pick(rng, bytes.len());
    let byte = if pick(rng, 2) == 0 {
        b"0123456789:=# \n"[pick(rng, 15)]
    } else {
        pick(rng, 256) as u8
    };
    match pick(rng, 4) {
        0 => {
            bytes.remove(place);
        }
        1 => bytes.insert(place, byte)?,
        _ => bytes[place] = byte,
    }
    Ok(())
}

// Removes, doubles or cuts a line or a word, or exchanges two of them.
fn change_pieces<R: Rng>(
    alloc: Global,
    rng: &mut R,
    bytes: &[u8],
    separators: &[u8],
) -> Result<Vec<u8>, AllocError> {
    let mut pieces = cut_at(alloc, bytes, separators)?;
    if pieces.is_empty() {
        return bytes.to_vec(alloc);
    }
    let (a, b) = (pick(rng, pieces.len()), pick(rng, pieces.len()));
    match pick(rng, 4) {
        0 => {
            pieces.remove(a);
        }
        1 => {
            let piece = pieces[a].clone()?;
            pieces.insert(b, piece)?;
        }
        2 => cut_short(rng, &mut pieces[a])?,
        _ => pieces.swap(a, b),
    }
    join(alloc, &pieces)
}

// Cuts a piece short before its first space at or after a random byte, or before that byte where no
// such space is, and keeps the piece's last byte.
fn cut_short<R: Rng>(rng: &mut R, piece: &mut Vec<u8>) -> Result<(), AllocError> {
    if piece.is_empty() {
        return Ok(());
    }
    let first = pick(rng, piece.len());
    let separator = piece.last().copied();
    let spaces = piece.iter().enumerate().filter(|(_, byte)| **byte == b' ');
    let end = spaces
        .map(|(place, _)| place)
        .find(|place| *place >= first)
        .unwrap_or(first);
    piece.truncate(end);
    if let Some(separator) = separator {
        piece.push(separator)?;
    }
    Ok(())
}

// Changes a word to another one, or to a number at a limit.
fn change_word<R: Rng>(alloc: Global, rng: &mut R, bytes: &[u8]) -> Result<Vec<u8>, AllocError> {
    let mut pieces = cut_at(alloc, bytes, b" \n")?;
    if pieces.is_empty() {
        return bytes.to_vec(alloc);
    }
    let place = pick(rng, pieces.len());
    let mut word = Vec::new(alloc);
    if pick(rng, 3) == 0 {
        word.extend_from_slice(WORDS[pick(rng, WORDS.len())])?;
    } else {
        word.extend_from_slice(MARKS[pick(rng, MARKS.len())])?;
        word.extend_from_slice(NUMBERS[pick(rng, NUMBERS.len())])?;
    }
    if let Some(last) = pieces[place].last() {
        if matches!(last, b' ' | b'\n') {
            word.push(*last)?;
        }
    }
    pieces[place] = word;
    join(alloc, &pieces)
}
