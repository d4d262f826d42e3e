//! The fields of texts, each appended to the text so far. After want of memory the text is of no
//! use.

ghost use Rattle.std.specs.Prelude.{◌≡◌, ℕ, ◌<◌, ◌^◌, [], ◌∷◌, ◌++◌, List, length, map, decimal, OnOk};
ghost use Rattle.seq_objects.specs.Words.{operation_words};
ghost use Rattle.text_fields.specs.declared.version.Version.TheVariants.{Second};
ghost use Rattle.text_fields.specs.Lines.{line_text, text_of};
ghost use Rattle.text_fields.specs.Counts.{pair_words};
ghost use Rattle.text_fields.specs.Head.{title_words, object_words, callers_words, calls_words, head_lines};
ghost use Rattle.book_text.specs.CallLines.{place_words};
ghost use Rattle.book_text.specs.Fields.{spaced};

use book_base::{Call, Cut, NoMemory, OpWord};
use seq_objects::{Kind, put_number};

/// Appends a number after a space.
pub fn put_spaced(out: &mut Vec<u8>, n: u64) -> Result<(), NoMemory>
    // After an answer Ok the vector has a space and the digits of the number after what it held.
    ensures { OnOk result (out.new.items ≡ out.old.items ++ 32 ∷ decimal n) }
{
    out.push(b' ')?;
    put_number(out, n)
}

/// Appends the line of the title.
pub fn put_title(out: &mut Vec<u8>, title: &[u8]) -> Result<(), NoMemory>
    // After an answer Ok the vector has the title's line in version 2 after what it held.
    ensures { OnOk result (out.new.items ≡ out.old.items
        ++ line_text (title_words Second title.now)) }
{
    out.extend_from_slice(title)?;
    out.extend_from_slice(b" 2\n")?;
    Ok(())
}

/// Appends the line of the object.
fn put_object(out: &mut Vec<u8>, kind: Kind) -> Result<(), NoMemory>
    ensures { OnOk result (out.new.items ≡ out.old.items ++ line_text (object_words kind)) }
{
    out.extend_from_slice(b"object ")?;
    out.extend_from_slice(kind.name().as_bytes())?;
    out.push(b'\n')?;
    Ok(())
}

/// Appends the line of the number of callers.
fn put_callers(out: &mut Vec<u8>, n: u32) -> Result<(), NoMemory>
    ensures { OnOk result (out.new.items ≡ out.old.items ++ line_text (callers_words n)) }
{
    out.extend_from_slice(b"callers ")?;
    put_number(out, u64::from(n))?;
    out.push(b'\n')?;
    Ok(())
}

/// Appends each count of a cut after a space.
pub fn put_counts(out: &mut Vec<u8>, cut: &Cut) -> Result<(), NoMemory>
    // After an answer Ok each count of the cut, with a space before it, is appended to what the
    // vector held.
    ensures { OnOk result (out.new.items ≡ out.old.items ++ spaced (map decimal cut.now)) }
{
    for i in 0..cut.n() {
        put_spaced(out, cut.get(i))?;
    }
    Ok(())
}

/// Appends the line of the numbers of calls.
fn put_calls_line(out: &mut Vec<u8>, calls: &Cut) -> Result<(), NoMemory>
    ensures { OnOk result (out.new.items ≡ out.old.items ++ line_text (calls_words calls.now)) }
{
    out.extend_from_slice(b"calls")?;
    put_counts(out, calls)?;
    out.push(b'\n')?;
    Ok(())
}

/// Appends the head of a text: its title, a word such as `book`, the kind of its object, and the
/// number of calls of each caller.
pub fn put_head(out: &mut Vec<u8>, title: &[u8], kind: Kind, calls: &Cut) -> Result<(), NoMemory>
    // After an answer Ok the vector has the lines of this head in version 2 after what it held.
    ensures { OnOk result (out.new.items ≡ out.old.items
        ++ text_of (head_lines Second title.now kind calls.now)) }
{
    put_title(out, title)?;
    put_object(out, kind)?;
    put_callers(out, calls.n())?;
    put_calls_line(out, calls)
}

/// Appends the pairs of a cut, each after a space.
pub fn put_pairs(out: &mut Vec<u8>, cut: &Cut) -> Result<(), NoMemory>
    // After an answer Ok each pair of the cut, with a space before it, is appended to what the
    // vector held.
    ensures { OnOk result (out.new.items ≡ out.old.items ++ spaced (pair_words 0 cut.now)) }
{
    for j in 0..cut.n() {
        put_pair(out, j, cut.get(j))?;
    }
    Ok(())
}

/// Appends the pair of a caller and a count after a space, or nothing where the count is 0.
fn put_pair(out: &mut Vec<u8>, j: u32, count: u64) -> Result<(), NoMemory>
    ensures { OnOk result (out.new.items ≡ out.old.items ++ spaced (pair_words j (count ∷ []))) }
{
    if count == 0 {
        return Ok(());
    }
    put_spaced(out, u64::from(j))?;
    out.push(b':')?;
    put_number(out, count)
}

/// Appends the caller and the number of a call, each after a space.
pub fn put_place(out: &mut Vec<u8>, call: Call) -> Result<(), NoMemory>
    // After an answer Ok the call's caller and its number, with a space before each, are appended
    // to what the vector held.
    ensures { OnOk result (out.new.items ≡ out.old.items ++ spaced (place_words call)) }
{
    put_spaced(out, u64::from(call.caller))?;
    put_spaced(out, call.number)
}

/// Appends the words of an operation, each after a space.
pub fn put_operation(out: &mut Vec<u8>, kind: Kind, op: OpWord) -> Result<(), NoMemory>
    // After an answer Ok the operation's words, with a space before each, are appended to what the
    // vector held.
    ensures { OnOk result (out.new.items ≡ out.old.items ++ spaced (operation_words kind op)) }
{
    out.push(b' ')?;
    kind.put_op(out, op)
}
