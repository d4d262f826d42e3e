ghost use Rattle.std.specs.Prelude.{◌≡◌, ◌⊎◌, ℕ, ◌<◌, ◌≤◌, List, drop, length, take};
ghost use Rattle.book_base.specs.declared.fault.TextFault.{TextFault};
ghost use Rattle.book_base.specs.Book.{Page};
ghost use Rattle.seq_objects.specs.declared.kind.Kind.{Kind};
ghost use Rattle.given_book.specs.Given.{IsGiven, IsFirstGivenFault};
ghost use Rattle.given_book.specs.Explaining.{IsExplained, SaysNoneBroken};
ghost use Rattle.given_book.specs.Texts.{IsLegalGiven, IsIllegalGiven, IsSmallerWitness, IsPictureOf};
ghost use Rattle.selfcheck_c.specs.declared.TheConstants.{LEGAL, ILLEGAL, REFUSED, NO_MEMORY, NO_ROOM};
ghost use Rattle.selfcheck_c.specs.declared.handles.TheConstants.{DONE};
ghost use Rattle.selfcheck_c.specs.Refusals.{IsGivenRefusal};

use crate::buffer::put;
use crate::handles::DONE;
use crate::refusal::Refusal;
use crate::{ILLEGAL, LEGAL, NO_MEMORY, NO_ROOM, REFUSED};
use book_base::ReadFault;
use given_book::{Explanation, explained_text, picture_text, smaller_text};
use std::alloc::Global;

/// Writes into a buffer the text of a smaller book of the book that the bytes give, where this book
/// is illegal; the smaller one is illegal too. The bytes are a book's text in either version, or
/// what a run or monitors have written with its witness. `written` is the text's length, even where
/// the buffer can't hold it and nothing is written. Where the bytes are refused, `refusal` says
/// why.
#[unsafe(no_mangle)]
pub extern "C" fn selfcheck_smaller(
    alloc: Global,
    text: &[u8],
    buffer: &mut [u8],
    written: &mut usize,
    refusal: &mut Refusal,
) -> u32
    // With `LEGAL` the bytes give a book that has a legal order.
    ensures legal { result ≡ LEGAL → IsLegalGiven text.now }
    // With `ILLEGAL` the text fits the buffer.
    ensures held { result ≡ ILLEGAL → written.new ≤ length buffer.new }
    // With `ILLEGAL` the first `written` bytes of the buffer are the text of a part of the book
    // that has no legal order, shows that the book has none either, and is made smaller by no rule.
    ensures smaller { result ≡ ILLEGAL → IsSmallerWitness text.now (take written.new buffer.new) }
    // With `ILLEGAL` the bytes of the buffer after the first `written` are as they were.
    ensures rest { result ≡ ILLEGAL → drop written.new buffer.new ≡ drop written.new buffer.old }
    // With `REFUSED` the bytes give no book, and the refusal has the line and the number of their
    // first fault.
    ensures refused { result ≡ REFUSED → IsGivenRefusal text.now refusal.new }
    // With `NO_ROOM` the count `written` is greater than the length of the buffer.
    ensures no_room { result ≡ NO_ROOM → length buffer.old < written.new }
    // With `NO_ROOM` there is a text, `written` bytes long, of a part of the book that has no legal
    // order, shows that the book has none either, and is made smaller by no rule.
    ensures unheld { result ≡ NO_ROOM → (wanted : List ℕ) × IsSmallerWitness text.now wanted
        × (length wanted ≡ written.new) }
    // The status is `LEGAL`, `ILLEGAL`, `REFUSED`, `NO_MEMORY` or `NO_ROOM`.
    ensures ends { (result ≡ LEGAL) ⊎ (result ≡ ILLEGAL) ⊎ (result ≡ REFUSED) ⊎ (result ≡ NO_MEMORY)
        ⊎ (result ≡ NO_ROOM) }
    // With each status but `ILLEGAL` the buffer is as it was.
    ensures unwritten { ¬ (result ≡ ILLEGAL) → buffer.new ≡ buffer.old }
    // With each status but `REFUSED` the refusal is as it was.
    ensures kept { ¬ (result ≡ REFUSED) → refusal.new ≡ refusal.old }
    // With each status but `ILLEGAL` and `NO_ROOM` the count `written` is as it was.
    ensures uncounted { ¬ (result ≡ ILLEGAL) → ¬ (result ≡ NO_ROOM) → written.new ≡ written.old }
    // Bytes that give a book with a legal order have the status `LEGAL`, unless memory runs out.
    ensures legal_told { IsLegalGiven text.now → (result ≡ LEGAL) ⊎ (result ≡ NO_MEMORY) }
    // Bytes that give a book without a legal order have the status `ILLEGAL` or `NO_ROOM`, unless
    // memory runs out.
    ensures illegal_told { IsIllegalGiven text.now →
        (result ≡ ILLEGAL) ⊎ (result ≡ NO_ROOM) ⊎ (result ≡ NO_MEMORY) }
    // Bytes that have a first fault have the status `REFUSED`, unless memory runs out.
    ensures fault_told { (fault : TextFault) → IsFirstGivenFault text.now fault →
        (result ≡ REFUSED) ⊎ (result ≡ NO_MEMORY) }
{
    match smaller_text(alloc, text) {
        Ok(Some(smaller)) => {
            *written = smaller.len();
            if put(buffer, &smaller) {
                ILLEGAL
            } else {
                NO_ROOM
            }
        }
        Ok(None) => LEGAL,
        Err(ReadFault::Text(fault)) => {
            *refusal = Refusal::from(fault);
            REFUSED
        }
        Err(ReadFault::NoMemory) => NO_MEMORY,
    }
}

/// Writes into a buffer the picture, as SVG, of the book that the bytes give. The bytes are a
/// book's text in either version, or what a run or monitors have written with its witness.
/// `written` is the picture's length, even where the buffer can't hold it and nothing is written.
/// Where the bytes are refused, `refusal` says why.
#[unsafe(no_mangle)]
pub extern "C" fn selfcheck_picture(
    alloc: Global,
    text: &[u8],
    buffer: &mut [u8],
    written: &mut usize,
    refusal: &mut Refusal,
) -> u32
    // With `DONE` the picture fits the buffer.
    ensures held { result ≡ DONE → written.new ≤ length buffer.new }
    // With `DONE` the first `written` bytes of the buffer are a picture of the book that the bytes
    // give.
    ensures shown { result ≡ DONE → IsPictureOf text.now (take written.new buffer.new) }
    // With `DONE` the bytes of the buffer after the first `written` are as they were.
    ensures rest { result ≡ DONE → drop written.new buffer.new ≡ drop written.new buffer.old }
    // With `REFUSED` the bytes give no book, and the refusal has the line and the number of their
    // first fault.
    ensures refused { result ≡ REFUSED → IsGivenRefusal text.now refusal.new }
    // With `NO_ROOM` the count `written` is greater than the length of the buffer.
    ensures no_room { result ≡ NO_ROOM → length buffer.old < written.new }
    // With `NO_ROOM` there is a picture, `written` bytes long, of the book.
    ensures unheld { result ≡ NO_ROOM → (wanted : List ℕ) × IsPictureOf text.now wanted
        × (length wanted ≡ written.new) }
    // The status is `DONE`, `REFUSED`, `NO_MEMORY` or `NO_ROOM`.
    ensures ends { (result ≡ DONE) ⊎ (result ≡ REFUSED) ⊎ (result ≡ NO_MEMORY)
        ⊎ (result ≡ NO_ROOM) }
    // With each status but `DONE` the buffer is as it was.
    ensures unwritten { ¬ (result ≡ DONE) → buffer.new ≡ buffer.old }
    // With each status but `REFUSED` the refusal is as it was.
    ensures kept { ¬ (result ≡ REFUSED) → refusal.new ≡ refusal.old }
    // With each status but `DONE` and `NO_ROOM` the count `written` is as it was.
    ensures uncounted { ¬ (result ≡ DONE) → ¬ (result ≡ NO_ROOM) → written.new ≡ written.old }
    // Bytes that give a book have the status `DONE` or `NO_ROOM`, unless memory runs out.
    ensures drawn_told { (kind : Kind) (book : List Page) → IsGiven text.now kind book →
        (result ≡ DONE) ⊎ (result ≡ NO_ROOM) ⊎ (result ≡ NO_MEMORY) }
    // Bytes that have a first fault have the status `REFUSED`, unless memory runs out.
    ensures fault_told { (fault : TextFault) → IsFirstGivenFault text.now fault →
        (result ≡ REFUSED) ⊎ (result ≡ NO_MEMORY) }
{
    match picture_text(alloc, text) {
        Ok(picture) => {
            let drawn = picture.as_bytes();
            *written = drawn.len();
            if put(buffer, drawn) { DONE } else { NO_ROOM }
        }
        Err(ReadFault::Text(fault)) => {
            *refusal = Refusal::from(fault);
            REFUSED
        }
        Err(ReadFault::NoMemory) => NO_MEMORY,
    }
}

/// Writes into a buffer why the book has no legal order that the bytes give: which rule of its kind it
/// breaks, and by which calls; or, where it breaks none, its longest legal prefixes, at most eight, and
/// the calls that may come next after each, with the reply that the object gives there. Of a book that breaks no
/// rule and has a legal order, or too many legal prefixes to try, one line says that. The bytes are a
/// book's text in either version, or what a run or monitors have written with its witness. `written`
/// is the text's length, even where the buffer can't hold it and nothing is written. Where the bytes
/// are refused, `refusal` says why.
#[unsafe(no_mangle)]
pub extern "C" fn selfcheck_explain(
    alloc: Global,
    text: &[u8],
    buffer: &mut [u8],
    written: &mut usize,
    refusal: &mut Refusal,
) -> u32
    // With `ILLEGAL` or `DONE` the text fits the buffer.
    ensures held { (result ≡ ILLEGAL) ⊎ (result ≡ DONE) → written.new ≤ length buffer.new }
    // With `ILLEGAL` the bytes give a book that has no legal order, and the first `written` bytes of
    // the buffer say why: which rule of its kind it breaks, and by which calls, or, where it breaks
    // none, its longest legal prefixes and the calls that may come next after each.
    ensures explained { result ≡ ILLEGAL → IsExplained text.now (take written.new buffer.new) }
    // With `DONE` the bytes give a book that breaks none of the rules of its kind, and the first
    // `written` bytes of the buffer say that: either the book has a legal order, or they also say that
    // it has too many legal prefixes to try.
    ensures none_broken { result ≡ DONE → SaysNoneBroken text.now (take written.new buffer.new) }
    // With `ILLEGAL` or `DONE` the bytes of the buffer after the first `written` are as they were.
    ensures rest { (result ≡ ILLEGAL) ⊎ (result ≡ DONE) →
        drop written.new buffer.new ≡ drop written.new buffer.old }
    // With `REFUSED` the bytes give no book, and the refusal has the line and the number of their
    // first fault.
    ensures refused { result ≡ REFUSED → IsGivenRefusal text.now refusal.new }
    // With `NO_ROOM` the count `written` is greater than the length of the buffer.
    ensures no_room { result ≡ NO_ROOM → length buffer.old < written.new }
    // With `NO_ROOM` there is such a text, `written` bytes long.
    ensures unheld { result ≡ NO_ROOM → (wanted : List ℕ)
        × (IsExplained text.now wanted ⊎ SaysNoneBroken text.now wanted)
        × (length wanted ≡ written.new) }
    // The status is `ILLEGAL`, `DONE`, `REFUSED`, `NO_MEMORY` or `NO_ROOM`.
    ensures ends { (result ≡ ILLEGAL) ⊎ (result ≡ DONE) ⊎ (result ≡ REFUSED) ⊎ (result ≡ NO_MEMORY)
        ⊎ (result ≡ NO_ROOM) }
    // With each status but `ILLEGAL` and `DONE` the buffer is as it was.
    ensures unwritten { ¬ (result ≡ ILLEGAL) → ¬ (result ≡ DONE) → buffer.new ≡ buffer.old }
    // With each status but `REFUSED` the refusal is as it was.
    ensures kept { ¬ (result ≡ REFUSED) → refusal.new ≡ refusal.old }
    // With `REFUSED` or `NO_MEMORY` the count `written` is as it was.
    ensures uncounted { (result ≡ REFUSED) ⊎ (result ≡ NO_MEMORY) → written.new ≡ written.old }
    // Bytes that give a book have the status `ILLEGAL`, `DONE` or `NO_ROOM`, unless memory runs
    // out.
    ensures book_told { (kind : Kind) (book : List Page) → IsGiven text.now kind book →
        (result ≡ ILLEGAL) ⊎ (result ≡ DONE) ⊎ (result ≡ NO_ROOM) ⊎ (result ≡ NO_MEMORY) }
    // Bytes that have a first fault have the status `REFUSED`, unless memory runs out.
    ensures fault_told { (fault : TextFault) → IsFirstGivenFault text.now fault →
        (result ≡ REFUSED) ⊎ (result ≡ NO_MEMORY) }
{
    match explained_text(alloc, text) {
        Ok(Explanation::Illegal(line)) => {
            *written = line.len();
            if put(buffer, &line) { ILLEGAL } else { NO_ROOM }
        }
        Ok(Explanation::NoneBroken(line)) => {
            *written = line.len();
            if put(buffer, &line) { DONE } else { NO_ROOM }
        }
        Err(ReadFault::Text(fault)) => {
            *refusal = Refusal::from(fault);
            REFUSED
        }
        Err(ReadFault::NoMemory) => NO_MEMORY,
    }
}
