//! The lines that the program writes.

ghost use Rattle.std.specs.Prelude.{◌≡◌, ◌++◌, OnOk};
ghost use Rattle.watch.specs.Output.{second_number, at_name, output_line};

use book_base::NoMemory;
use seq_objects::put_number;

// Appends a second number after a space, where it is another one than the first.
#[tactic(auto, unfolding(crate::specs::Output::second_number))]
fn put_second(out: &mut Vec<u8>, first: u64, last: u64) -> Result<(), NoMemory>
    ensures { OnOk result (out.new.items ≡ out.old.items ++ second_number first last) }
{
    if first != last {
        out.extend_from_slice(b" ")?;
        put_number(out, last)?;
    }
    Ok(())
}

// Appends the name of an object after a space and `@`, where it has one.
#[tactic(auto, unfolding(crate::specs::Output::at_name))]
fn put_name(out: &mut Vec<u8>, name: &[u8]) -> Result<(), NoMemory>
    ensures { OnOk result (out.new.items ≡ out.old.items ++ at_name name.now) }
{
    if !name.is_empty() {
        out.extend_from_slice(b" @")?;
        out.extend_from_slice(name)?;
    }
    Ok(())
}

// Appends a line, or a beginning of it where memory is lacking.
#[tactic(auto, unfolding(crate::specs::Output::output_line))]
fn put_parts(
    out: &mut Vec<u8>,
    word: &[u8],
    first: u64,
    last: u64,
    name: &[u8],
) -> Result<(), NoMemory>
    ensures { OnOk result
        (out.new.items ≡ out.old.items ++ output_line word.now first last name.now) }
{
    out.extend_from_slice(word)?;
    out.extend_from_slice(b" ")?;
    put_number(out, first)?;
    put_second(out, first, last)?;
    put_name(out, name)?;
    out.extend_from_slice(b"\n")?;
    Ok(())
}

/// Appends a word, the number of a line, or of the first and the last one of some, and the name of
/// an object that has one. Nothing is appended where memory is lacking.
pub fn put_line(
    out: &mut Vec<u8>,
    word: &[u8],
    first: u64,
    last: u64,
    name: &[u8],
) -> Result<(), NoMemory>
    ensures { OnOk result
        (out.new.items ≡ out.old.items ++ output_line word.now first last name.now) }
{
    let size = out.len();
    let put = put_parts(out, word, first, last, name);
    if put.is_err() {
        out.truncate(size);
    }
    put
}
