ghost use Rattle.std.specs.Prelude.{◌≡◌, ◌++◌, option_map, IfOk, OnOk};
ghost use Rattle.book_base.specs.Book.{IsCall, record_of};
ghost use Rattle.book_picture.specs.Bars.{operation_line, reply_line};

use crate::values::reply_of;
use book_base::{Book, Call, NoMemory};
use seq_objects::{Kind, put_reply};
use std::alloc::Global;

/// The width of a letter, in pixels.
const LETTER: usize = 8;

/// The space beside a line of letters, in pixels: the margins of a bar, and the number of the call
/// in an order.
const BESIDE: usize = 48;

/// The label in the bar of a call: the call's operation, and below it its reply.
#[derive(Debug, Drop)]
pub(crate) struct Label {
    pub operation: Vec<u8>,
    pub reply: Vec<u8>,
}

impl Label {
    /// The label of a call of a book.
    pub fn of(alloc: Global, kind: Kind, book: &Book, call: Call) -> Result<Label, NoMemory>
        requires { IsCall book.now call }
        ensures operation { IfOk result
            (λ label. label.operation.items ≡ operation_line kind book.now call) }
        ensures reply { IfOk result (λ label. label.reply.items
            ≡ reply_line (option_map (λ r. r.reply) (record_of book.now call))) }
    {
        let mut operation = Vec::new(alloc);
        kind.put_op(&mut operation, book.op(call))?;
        let mut reply = Vec::new(alloc);
        put_reply_line(&mut reply, reply_of(book, call))?;
        Ok(Label { operation, reply })
    }

    /// The width of a bar with this label, in pixels.
    pub fn width(&self) -> usize {
        let letters = self.operation.len().max(self.reply.len());
        letters.saturating_mul(LETTER).saturating_add(BESIDE)
    }
}

// Appends the second line of a label: the reply to a call, or that there is none.
fn put_reply_line(out: &mut Vec<u8>, reply: Option<u64>) -> Result<(), NoMemory>
    ensures { OnOk result (out.new.items ≡ out.old.items ++ reply_line reply) }
{
    match reply {
        Some(reply) => put_reply(out, reply),
        None => Ok(out.extend_from_slice(b"no reply")?),
    }
}
