ghost use Rattle.std.specs.Prelude.{◌≡◌, ℕ, ◌++◌, List, option_map, string_bytes, IfOk, OnOk};
ghost use Rattle.sketch.specs.Intervals.{rows_of};
ghost use Rattle.book_picture.specs.Bars.{IsShownOf, order_in};
ghost use Rattle.book_picture.specs.Elements.{IsElementOf, AreElementsOf, AreLanesElements, top_of, IsPicture};
ghost use Rattle.book_picture.specs.Sheets.{AreDrawable, AreAllDrawable};
ghost use Rattle.book_picture.specs.Values.{class_of_call};

use crate::marked_calls::MarkedCalls;
use crate::rows::folded;
use crate::sheet::PictureSheet;
use crate::values::values_of;
use book_base::{Book, Call, NoMemory, Place};
use frontier_check::Verdict;
use seq_objects::Kind;
use sketch::{Interval, call_lanes, sketch};
use std::alloc::Global;

/// The height at which the lanes of the first row begin, in pixels, in a picture without a line on
/// an error.
const TOP: usize = 84;

/// The height of a line of text, in pixels.
const LINE: usize = 18;

/// The picture of a book of an object of this kind, with this verdict, as SVG.
///
/// Where the verdict has a legal order, the bar of each call in it shows the call's number in this
/// order. Where there is no legal order, nothing in the picture orders the calls but the places of
/// their bars. The places are folded into rows, which are read one after the other: a call has a
/// bar in each row in which it has a place. Calls that show the same value have the same colour,
/// and the calls that `marks` has are marked. Where the book is the witness of a run, `error` is
/// the call of the run's first error line, and the picture says so.
pub fn draw_book(
    alloc: Global,
    kind: Kind,
    book: &Book,
    verdict: &Verdict,
    marks: &MarkedCalls,
    error: Option<Call>,
) -> Result<String, NoMemory>
    // The text is the book's picture, with these marks, the numbers of the verdict's order, where
    // the verdict carries one, and a line on the call `error`, where this is one.
    ensures { IfOk result (λ text.
        IsPicture kind book.now (order_in verdict.now) marks.now error (string_bytes text)) }
{
    let events = sketch(alloc, book)?;
    let lanes = call_lanes(alloc, book, &events)?;
    let values = values_of(alloc, kind, book, &events)?;
    let rows = folded(alloc, kind, book, &lanes, events.len(), top_of(error))?;
    let sheet = PictureSheet {
        alloc,
        kind,
        book,
        order: order_of(verdict),
        rows: &rows,
        values: &values,
        marks,
        error,
    };
    let mut out = sheet.head()?;
    put_lanes(&mut out, &sheet, &lanes)?;
    out.push_str("</svg>\n")?;
    Ok(out)
}

// The height at which the first row begins: below the line on the first error, where there is one.
fn top_of(error: Option<Call>) -> usize
    ensures { result ≡ top_of error }
{
    match error {
        Some(_) => TOP + LINE,
        None => TOP,
    }
}

// The legal order that a verdict carries, where it carries one.
fn order_of(verdict: &Verdict) -> Option<&[Place]>
    ensures { option_map (λ o. o.now) result ≡ order_in verdict.now }
{
    match verdict {
        Verdict::Legal(order) => Some(order.as_slice()),
        Verdict::Illegal => None,
    }
}

// Appends the elements of the calls of all callers.
fn put_lanes(
    out: &mut String,
    sheet: &PictureSheet,
    lanes: &[Vec<Interval>],
) -> Result<(), NoMemory>
    requires { AreAllDrawable sheet.now.book.now (rows_of lanes.now) }
    ensures { OnOk result ((text : List ℕ) × AreLanesElements
        (IsElementOf
        (class_of_call sheet.now.kind sheet.now.book.now sheet.now.values.now sheet.now.marks.now)
        (IsShownOf sheet.now.kind sheet.now.book.now (option_map (λ o. o.now) sheet.now.order))
        sheet.now.rows.now) (rows_of lanes.now) text
        × (string_bytes out.new ≡ string_bytes out.old ++ text)) }
{
    for lane in lanes {
        put_lane(out, sheet, lane)?;
    }
    Ok(())
}

// Appends the elements of a caller's calls.
fn put_lane(out: &mut String, sheet: &PictureSheet, lane: &[Interval]) -> Result<(), NoMemory>
    requires { AreDrawable sheet.now.book.now lane.now }
    ensures { OnOk result ((text : List ℕ) × AreElementsOf
        (IsElementOf
        (class_of_call sheet.now.kind sheet.now.book.now sheet.now.values.now sheet.now.marks.now)
        (IsShownOf sheet.now.kind sheet.now.book.now (option_map (λ o. o.now) sheet.now.order))
        sheet.now.rows.now) lane.now text
        × (string_bytes out.new ≡ string_bytes out.old ++ text)) }
{
    for interval in lane {
        let element = sheet.element(interval)?;
        out.push_str(&element)?;
    }
    Ok(())
}
