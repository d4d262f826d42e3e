//! The rows that the places of a sketch are folded into.

ghost use Rattle.std.specs.Prelude.{length, IfOk};
ghost use Rattle.sketch.specs.Intervals.{rows_of};
ghost use Rattle.book_picture.specs.Sheets.{AreAllDrawable};
ghost use Rattle.book_picture.specs.Rows.{AreFolded};

use crate::columns::column_edges;
use crate::row::{ROW_PLACES, Row, Stretch};
use book_base::{Book, NoMemory};
use seq_objects::Kind;
use sketch::Interval;
use std::alloc::Global;

/// The distance from one lane to the next, in pixels.
pub(crate) const LANE: usize = 56;

/// The distance from the lanes of a row to those of the next, in pixels.
const BETWEEN: usize = 20;

/// The rows into which the `places` places of a sketch are folded. The first row begins at the
/// height `top`, in pixels.
pub(crate) fn folded(
    alloc: Global,
    kind: Kind,
    book: &Book,
    lanes: &[Vec<Interval>],
    places: usize,
    top: usize,
) -> Result<Vec<Row>, NoMemory>
    requires { AreAllDrawable book.now (rows_of lanes.now) }
    ensures { IfOk result (λ rows. AreFolded places (length lanes.now) top rows.items) }
{
    let height = lanes.len().saturating_mul(LANE).saturating_add(BETWEEN);
    let mut rows = Vec::new(alloc);
    let mut first: usize = 0;
    let mut row_top = top;
    'folding: loop {
        let left = places - first;
        let stretch = Stretch {
            first,
            places: left.min(ROW_PLACES),
        };
        let edges = column_edges(alloc, kind, book, lanes, stretch)?;
        rows.push(Row {
            first,
            top: row_top,
            edges,
        })?;
        if left <= ROW_PLACES {
            return Ok(rows);
        }
        first += ROW_PLACES;
        row_top = row_top.saturating_add(height);
    }
}
