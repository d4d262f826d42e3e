ghost use Rattle.std.specs.Prelude.{◌≡◌, ◌+◌, ◌≤◌, length, IfOk};
ghost use Rattle.sketch.specs.Intervals.{rows_of};
ghost use Rattle.book_base.specs.Book.{IsCall};
ghost use Rattle.book_picture.specs.Rows.{capped, AreRising};
ghost use Rattle.book_picture.specs.Sheets.{AreDrawable, AreAllDrawable};

use crate::label::Label;
use crate::row::Stretch;
use book_base::{Book, Call, NoMemory};
use seq_objects::Kind;
use sketch::Interval;
use std::alloc::Global;

/// Where the first column of a row begins, in pixels.
const LEFT: usize = 100;

/// The least width of a column, in pixels.
const LEAST: usize = 28;

/// The edges of the columns of a row, in pixels: each column is as wide as the labels of the bars
/// that end in it need, and at least `LEAST` pixels wide.
pub(crate) fn column_edges(
    alloc: Global,
    kind: Kind,
    book: &Book,
    lanes: &[Vec<Interval>],
    stretch: Stretch,
) -> Result<Vec<usize>, NoMemory>
    requires { AreAllDrawable book.now (rows_of lanes.now) }
    ensures count { IfOk result (λ edges. length edges.items ≡ stretch.places + 1) }
    ensures rising { IfOk result (λ edges. AreRising edges.items) }
{
    let mut edges = Vec::new(alloc);
    edges.push(LEFT)?;
    let mut edge = LEFT;
    for _ in 0..stretch.places {
        edge = next_edge(alloc, kind, book, lanes, stretch, &edges, edge)?;
        edges.push(edge)?;
    }
    Ok(edges)
}

// The next edge of a row's columns, in pixels. It is at least one least width after `last`, and not
// left of the end of any bar that ends at it.
fn next_edge(
    alloc: Global,
    kind: Kind,
    book: &Book,
    lanes: &[Vec<Interval>],
    stretch: Stretch,
    edges: &[usize],
    last: usize,
) -> Result<usize, NoMemory>
    requires { AreAllDrawable book.now (rows_of lanes.now) }
    ensures { IfOk result (λ edge. capped (last + LEAST) ≤ edge) }
{
    let mut edge = last.saturating_add(LEAST);
    for lane in lanes {
        edge = edge.max(lane_edge(alloc, kind, book, lane, stretch, edges)?);
    }
    Ok(edge)
}

// How far to the right the bars of a lane reach that end at the edge after `edges`, in pixels; 0
// where none ends at it.
fn lane_edge(
    alloc: Global,
    kind: Kind,
    book: &Book,
    lane: &[Interval],
    stretch: Stretch,
    edges: &[usize],
) -> Result<usize, NoMemory>
    requires { AreDrawable book.now lane.now }
{
    let mut edge: usize = 0;
    for interval in lane {
        if let Some(part) = stretch.part_of(interval) {
            if part.end == edges.len() {
                let left = edges[part.begin];
                edge = edge.max(bar_end(alloc, kind, book, interval.call, left)?);
            }
        }
    }
    Ok(edge)
}

// Where a bar ends that begins at `left` and is as wide as its label needs, in pixels.
fn bar_end(
    alloc: Global,
    kind: Kind,
    book: &Book,
    call: Call,
    left: usize,
) -> Result<usize, NoMemory>
    requires { IsCall book.now call }
{
    let label = Label::of(alloc, kind, book, call)?;
    Ok(left.saturating_add(label.width()))
}
