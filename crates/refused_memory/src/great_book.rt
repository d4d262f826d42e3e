ghost use Rattle.std.specs.Prelude.{◌<◌};

use anyhow::Result;
use std::alloc::Global;
use std::io::Write;

/// The number of callers of a generated book, the most that a book may have.
const CALLERS: u32 = 16;

/// The number of calls of each caller in the greatest book, the most that a caller may have.
const MOST_CALLS: u64 = 256;

/// The number of calls of each caller in the book of rounds, one in each round.
const ROUNDS: u64 = 8;

/// The book with the most callers and calls: all callers of a queue put values in, and only the
/// last caller's calls have replies.
pub fn great_book(alloc: Global) -> Result<Vec<u8>> {
    let mut text = Vec::new(alloc);
    write_head(&mut text, MOST_CALLS)?;
    let last = CALLERS - 1;
    for caller in 0..CALLERS {
        for number in 0..MOST_CALLS {
            write!(text, "{caller} {number} enq {number}")?;
            if caller == last {
                let own = number + 1;
                write!(text, " done view {last}:{own}")?;
            }
            writeln!(text)?;
        }
    }
    writeln!(text, "end")?;
    Ok(text)
}

/// A book of rounds: in each round the calls of all callers of a queue overlap, and each view
/// counts all calls up to its round. In every other round each caller dequeues the value that it
/// enqueued in the round before.
pub fn book_of_rounds(alloc: Global) -> Result<Vec<u8>> {
    let mut text = Vec::new(alloc);
    write_head(&mut text, ROUNDS)?;
    for caller in 0..CALLERS {
        for number in 0..ROUNDS {
            write_in_round(&mut text, caller, number)?;
        }
    }
    writeln!(text, "end")?;
    Ok(text)
}

fn write_head(text: &mut Vec<u8>, calls: u64) -> Result<()> {
    write!(text, "book 2\nobject queue\ncallers {CALLERS}\ncalls")?;
    for _ in 0..CALLERS {
        write!(text, " {calls}")?;
    }
    writeln!(text)?;
    Ok(())
}

fn write_in_round(text: &mut Vec<u8>, caller: u32, number: u64) -> Result<()>
    requires { number < 256 }
{
    let value = number / 2 * 100 + u64::from(caller);
    if number % 2 == 0 {
        write!(text, "{caller} {number} enq {value} done view")?;
    } else {
        write!(text, "{caller} {number} deq ={value} view")?;
    }
    let round = number + 1;
    for other in 0..CALLERS {
        write!(text, " {other}:{round}")?;
    }
    writeln!(text)?;
    Ok(())
}
