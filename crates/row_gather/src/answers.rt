//! Puts records into a book that has their calls.
ghost use Rattle.std.specs.Prelude.{◌≡◌, ◌<◌, OnOk, length};
ghost use Rattle.book_base.specs.Book.{IsValid};
ghost use Rattle.row_gather.specs.Known.{lists_in};
ghost use Rattle.row_gather.specs.Filling.{with_records, filled, IsFilled};

use book_base::{Book, NoMemory, Record};

// Adds the records to the book, in order, after the records that the book has of caller `j`.
fn add_answers_of(book: &mut Book, j: u32, records: &[Record]) -> Result<(), NoMemory>
    requires caller { j < length book.old }
    requires valid { IsValid (with_records book.old j records.now) }
    ensures { OnOk result (book.new ≡ with_records book.old j records.now) }
{
    for answer in records {
        book.put_answer(j, answer.reply, answer.view)?;
    }
    Ok(())
}

// Adds the records of list `j` to the book, for each caller `j`, after the records that the book
// has of that caller.
pub fn add_answers(book: &mut Book, lists: &[Vec<Record>]) -> Result<(), NoMemory>
    requires callers { length lists.now ≡ length book.old }
    requires valid { IsValid (filled book.old (lists_in lists.now)) }
    ensures { OnOk result (IsFilled book.old (lists_in lists.now) book.new) }
{
    for j in 0..book.callers() {
        add_answers_of(book, j, &lists[j as usize])?;
    }
    Ok(())
}
