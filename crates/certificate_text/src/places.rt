//! The lines after a book: the title of the order, its places, and the end.

ghost use Rattle.std.specs.Prelude.{◌≡◌, ◌↔◌, IsTrue, IfOk, IfErr};
ghost use Rattle.certificate_text.specs.Grammar.{order_words};
ghost use Rattle.certificate_text.specs.Reading.{IsTitle, IsNoTitle, ArePlaces, AreNoPlaces};

use crate::place_line::read_place_line;
use book_base::{Place, ReadFault, TextFault, What};
use std::alloc::Global;
use text_fields::{Lines, Words};

/// Reads the title of the order, which is the line after a book.
pub(crate) fn read_title(lines: &mut Lines) -> Result<(), TextFault>
    ensures found { IfOk result (λ _. IsTitle lines.old lines.new) }
    ensures refused { IfErr result (IsNoTitle lines.old) }
{
    let line = lines.number();
    let mut words = Words::new(lines.line()?);
    if is_title(&mut words) {
        Ok(())
    } else {
        Err(TextFault {
            line,
            what: What::Head,
        })
    }
}

/// Whether the words are those of the title of the order.
fn is_title(words: &mut Words) -> bool
    ensures { IsTrue result ↔ (words.old ≡ order_words) }
{
    words.next() == Some(b"order".as_slice())
        && words.next() == Some(b"2".as_slice())
        && words.next().is_none()
}

/// The places that the lines give, up to the end.
pub(crate) fn read_places(alloc: Global, lines: &mut Lines) -> Result<Vec<Place>, ReadFault>
    ensures found { IfOk result (λ order. ArePlaces lines.old order.items lines.new) }
    ensures refused { IfErr result (AreNoPlaces lines.old) }
{
    let mut order = Vec::new(alloc);
    loop {
        let line = lines.number();
        match read_place_line(lines.line()?) {
            Ok(Some(place)) => order.push(place)?,
            Ok(None) => return Ok(order),
            Err(what) => return Err(ReadFault::Text(TextFault { line, what })),
        }
    }
}
