//! The lines of a stream.

ghost use Rattle.std.specs.Prelude.{◌≡◌, ◌≢◌, ℕ, ◌<◌, ◌^◌, [], ◌∷◌, ◌++◌, List, codes, decimal, OnOk, IfOk, IfErr, IfSome, IfNone};
ghost use Rattle.seq_objects.specs.declared.kind.Kind.{Kind};
ghost use Rattle.seq_objects.specs.Replies.{reply_word};
ghost use Rattle.seq_objects.specs.Words.{operation_words};
ghost use Rattle.text_fields.specs.Head.{object_words};
ghost use Rattle.text_fields.specs.Lines.{words_of};
ghost use Rattle.stream_text.specs.Line.{HasOperation, name_words, NameNone, BeginWithNoNumber, IsLine, IsWrong};
ghost use Rattle.stream_text.specs.declared.fault.Wrong.TheVariants.{Head, Object, Process, Op, Reply};

use crate::fault::Wrong;
use book_base::OpWord;
use book_text::take_operation;
use seq_objects::{Kind, reply_from_word};
use text_fields::{Words, next_number};

/// A line of a stream after its head.
#[derive(Clone, Copy, Debug, PartialEq, Eq)]
pub enum StreamLine<'a> {
    /// A process calls an operation of the object of this name, which is empty for the one object
    /// without a name.
    Call {
        process: u64,
        name: &'a [u8],
        op: OpWord,
    },
    /// The pending call of a process returns with a reply.
    Return {
        process: u64,
        reply: u64,
    },
    /// The pending call of a process is lost.
    Lost {
        process: u64,
    },
    /// The stream ends.
    End,
}

/// Reads the first line of a stream, which is `stream 1`.
pub fn read_title(line: &[u8]) -> Result<(), Wrong>
    // A line that is taken is the title.
    ensures title { OnOk result (line.now ≡ codes "stream 1") }
    // A line that is refused is another one.
    ensures wrong { IfErr result (λ wrong. (wrong ≡ Head) × (line.now ≢ codes "stream 1")) }
{
    if line == b"stream 1".as_slice() {
        Ok(())
    } else {
        Err(Wrong::Head)
    }
}

/// Reads the second line of a stream: `object` and the name of a kind.
pub fn read_object(line: &[u8]) -> Result<Kind, Wrong>
    // A kind that is answered is the one that the line names.
    ensures object { IfOk result (λ kind. words_of line.now ≡ object_words kind) }
    // A line that is refused names no kind.
    ensures wrong { IfErr result (λ wrong. (wrong ≡ Object)
        × ((kind : Kind) → words_of line.now ≢ object_words kind)) }
{
    match object_of(&mut Words::new(line)) {
        Some(kind) => Ok(kind),
        None => Err(Wrong::Object),
    }
}

// The kind that the words of a line name.
fn object_of(words: &mut Words) -> Option<Kind>
    ensures found { IfSome result (λ kind. words.old ≡ object_words kind) }
    ensures none { IfNone result ((kind : Kind) → words.old ≢ object_words kind) }
{
    if words.next()? != b"object".as_slice() {
        return None;
    }
    let kind = Kind::from_name(words.next()?)?;
    if words.next().is_none() {
        Some(kind)
    } else {
        None
    }
}

/// Reads a line of a stream of objects of this kind.
pub fn read_stream_line(kind: Kind, line: &[u8]) -> Result<StreamLine<'_>, Wrong>
    // A line that is answered is the one that the words say.
    ensures line { IfOk result (IsLine kind (words_of line.now)) }
    // A line that is refused is wrong as the answer says.
    ensures wrong { IfErr result (IsWrong kind (words_of line.now)) }
{
    let mut words = Words::new(line);
    let Some(first) = words.next() else {
        return Err(Wrong::Event);
    };
    if first == b"call".as_slice() {
        return read_call(kind, &mut words);
    }
    if first == b"return".as_slice() {
        return read_return(kind, &mut words);
    }
    if first == b"lost".as_slice() {
        return read_loss(kind, &mut words);
    }
    if first == b"end".as_slice() && words.next().is_none() {
        return Ok(StreamLine::End);
    }
    Err(Wrong::Event)
}

// The process that the next word names.
fn read_process(words: &mut Words) -> Result<u64, Wrong>
    ensures found { IfOk result (λ process. (process < 2 ^ 64)
        × (words.old ≡ decimal process ∷ words.new)) }
    ensures none { IfErr result (λ wrong. (wrong ≡ Process) × BeginWithNoNumber words.old) }
{
    match next_number(words, u64::MAX) {
        Some(process) => Ok(process),
        None => Err(Wrong::Process),
    }
}

// What follows `call`.
fn read_call<'a>(kind: Kind, words: &mut Words<'a>) -> Result<StreamLine<'a>, Wrong>
    ensures line { IfOk result (IsLine kind (codes "call" ∷ words.old)) }
    ensures wrong { IfErr result (IsWrong kind (codes "call" ∷ words.old)) }
{
    let process = read_process(words)?;
    let name = read_name(words)?;
    let op = read_operation(kind, words)?;
    Ok(StreamLine::Call { process, name, op })
}

// The name of the object that the next word names, where it does so.
fn read_name<'a>(words: &mut Words<'a>) -> Result<&'a [u8], Wrong>
    ensures found { IfOk result (λ name. (words.old ≡ name_words name.now ++ words.new)
        × (name.now ≡ [] → NameNone words.new)) }
    ensures none { IfErr result (λ wrong. (wrong ≡ Object)
        × ((rest : List (List ℕ)) × (words.old ≡ (64 ∷ []) ∷ rest))) }
{
    let mut ahead = words.copy();
    let Some(word) = ahead.next() else {
        return Ok(&[]);
    };
    if word.is_empty() || word[0] != b'@' {
        return Ok(&[]);
    }
    if word.len() == 1 {
        return Err(Wrong::Object);
    }
    words.next();
    Ok(&word[1..])
}

// The operation that all words that are left spell.
fn read_operation(kind: Kind, words: &mut Words) -> Result<OpWord, Wrong>
    ensures found { IfOk result (λ op. HasOperation kind op
        × (words.old ≡ operation_words kind op)) }
    ensures none { IfErr result (λ wrong. (wrong ≡ Op)
        × ((op : ℕ) → HasOperation kind op → words.old ≢ operation_words kind op)) }
{
    let Some(op) = take_operation(&kind, words) else {
        return Err(Wrong::Op);
    };
    if words.next().is_some() {
        return Err(Wrong::Op);
    }
    Ok(op)
}

// What follows `return`.
fn read_return<'a>(kind: Kind, words: &mut Words<'a>) -> Result<StreamLine<'a>, Wrong>
    ensures line { IfOk result (IsLine kind (codes "return" ∷ words.old)) }
    ensures wrong { IfErr result (IsWrong kind (codes "return" ∷ words.old)) }
{
    let _ = kind;
    let process = read_process(words)?;
    let reply = read_reply(words)?;
    Ok(StreamLine::Return { process, reply })
}

// The reply that the one word that is left spells.
fn read_reply(words: &mut Words) -> Result<u64, Wrong>
    ensures found { IfOk result (λ reply. (reply < 2 ^ 64) × (words.old ≡ reply_word reply ∷ [])) }
    ensures none { IfErr result (λ wrong. (wrong ≡ Reply)
        × ((reply : ℕ) → reply < 2 ^ 64 → words.old ≢ reply_word reply ∷ [])) }
{
    let Some(word) = words.next() else {
        return Err(Wrong::Reply);
    };
    let Some(reply) = reply_from_word(word) else {
        return Err(Wrong::Reply);
    };
    if words.next().is_some() {
        return Err(Wrong::Reply);
    }
    Ok(reply)
}

// What follows `lost`.
fn read_loss<'a>(kind: Kind, words: &mut Words<'a>) -> Result<StreamLine<'a>, Wrong>
    ensures line { IfOk result (IsLine kind (codes "lost" ∷ words.old)) }
    ensures wrong { IfErr result (IsWrong kind (codes "lost" ∷ words.old)) }
{
    let _ = kind;
    let process = read_process(words)?;
    if words.next().is_some() {
        return Err(Wrong::Process);
    }
    Ok(StreamLine::Lost { process })
}
