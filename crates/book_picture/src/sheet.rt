ghost use Rattle.std.specs.Prelude.{◌≡◌, ℕ, ◌+◌, ◌-◌, ◌≤◌, ◌<◌, ◌++◌, List, length, Option, Some, true, codes, is_some, option_map, slice_get, string_bytes, IfOk, OnOk};
ghost use Rattle.book_base.specs.declared.call.Call.{Call};
ghost use Rattle.book_base.specs.declared.call.Place.{Place};
ghost use Rattle.book_base.specs.Book.{IsCall, record_of};
ghost use Rattle.book_picture.specs.declared.row.Row.{Row};
ghost use Rattle.book_picture.specs.declared.label.Label.{Label};
ghost use Rattle.book_picture.specs.Bars.{Shown, shown_by, IsShownOf, IsNumberIn, bar_of, outline_class, outline_start, outline_turn, outline_close, outline_text, label_text, number_text, bar_text};
ghost use Rattle.book_picture.specs.Elements.{part_text, parts_text, IsElementOf};
ghost use Rattle.book_picture.specs.Groups.{is_plain, GrowsPlain};
ghost use Rattle.book_picture.specs.Heads.{lane_text, lanes_text, rows_text, IsHead};
ghost use Rattle.book_picture.specs.Rows.{capped, lane_top};
ghost use Rattle.book_picture.specs.Titles.{line_text, verdict_text, title, error_text, error_line, first_lines, opening, notes_text};
ghost use Rattle.book_picture.specs.Values.{class_of_call};

use crate::escape::put_escaped;
use crate::label::Label;
use crate::marked_calls::MarkedCalls;
use crate::number::number_in;
use crate::row::{IntervalPart, Row};
use crate::rows::LANE;
use crate::values::{class_of, colour_of, value_of};
use book_base::{Book, Call, NoMemory, Place};
use seq_objects::Kind;
use sketch::Interval;
use std::alloc::Global;

/// The height of a bar, in pixels.
const BAR: usize = 44;

/// The distance from an edge of a column to a bar that begins or ends at it, in pixels.
const GAP: usize = 3;

/// The margin at the edges of a sheet, in pixels.
const MARGIN: usize = 12;

/// The least width of a sheet, in pixels: that of its legend.
const LEAST_WIDTH: usize = 712;

/// The style sheet of a picture. It has eight colours for values, on which dark text is read well,
/// and a further one for calls that show no value.
const STYLE: &str = "<style>\n\
    text { font: 13px monospace; fill: #1b1b1b; }\n\
    .title { font-weight: bold; }\n\
    .note { fill: #4d4d4d; }\n\
    .lane { stroke: #c9c9c9; }\n\
    .bar { fill: #eeeeee; stroke: #2b5480; stroke-width: 1.5; }\n\
    .value-0 .bar { fill: #cfe3fb; }\n\
    .value-1 .bar { fill: #fde0b8; }\n\
    .value-2 .bar { fill: #d3efd0; }\n\
    .value-3 .bar { fill: #f6d0df; }\n\
    .value-4 .bar { fill: #e2d6f6; }\n\
    .value-5 .bar { fill: #fbf3b4; }\n\
    .value-6 .bar { fill: #c8eeee; }\n\
    .value-7 .bar { fill: #e6d8c8; }\n\
    .marked .bar { stroke: #b3261e; stroke-width: 3.5; }\n\
    .marked .call { font-weight: bold; }\n\
    .bar.open { stroke-dasharray: 5 3; }\n\
    .bar.through { stroke: none; }\n\
    .badge { fill: #2b5480; }\n\
    .number { fill: #ffffff; font-size: 10px; font-weight: bold; text-anchor: middle; }\n\
    </style>\n";

/// What a picture of a book is drawn from: the book, a legal order of it where there is one, the
/// rows that its places are folded into, the values that calls show, the marked calls, and the call
/// of a run's first error line, where there is one.
#[derive(Drop)]
pub(crate) struct PictureSheet<'a> {
    pub alloc: Global,
    pub kind: Kind,
    pub book: &'a Book,
    pub order: Option<&'a [Place]>,
    pub rows: &'a [Row],
    pub values: &'a [u64],
    pub marks: &'a MarkedCalls,
    pub error: Option<Call>,
}

/// The place of a bar, in pixels, and which of its edges are drawn: the left one where the call's
/// invocation is in the bar's row, and the right one where its return is.
#[derive(Clone, Copy)]
struct Bar {
    left: usize,
    right: usize,
    top: usize,
    begins: bool,
    ends: bool,
    is_open: bool,
}

impl PictureSheet<'_> {
    /// The text before the bars of a picture: the opening tag, the style and the background, the
    /// legend, and in each row the lanes with their callers.
    pub fn head(&self) -> Result<String, NoMemory>
        ensures { IfOk result (λ text. IsHead self.now.kind
            (first_lines (is_some self.now.order) self.now.marks.now self.now.error)
            self.now.rows.now (length self.now.book.now) (string_bytes text)) }
    {
        let callers = self.book.callers();
        let width = width_of(self.rows);
        let height = height_of(self.rows, callers);
        let mut out = self.opening(width, height)?;
        self.put_legend(&mut out)?;
        put_rows(&mut out, self.rows, callers, width.saturating_sub(MARGIN))?;
        Ok(out)
    }

    // The text of a picture before its legend: the opening tag with the picture's width and height
    // in pixels, the style and the background.
    fn opening(&self, width: usize, height: usize) -> Result<String, NoMemory>
        ensures { IfOk result (λ text. string_bytes text ≡ opening width height) }
    {
        let mut out = String::new(self.alloc);
        write!(
            out,
            "<svg xmlns=\"http://www.w3.org/2000/svg\" width=\"{width}\" height=\"{height}\">\n"
        )?;
        out.push_str(STYLE)?;
        out.push_str("<rect width=\"100%\" height=\"100%\" fill=\"#ffffff\"/>\n")?;
        Ok(out)
    }

    // Appends the legend: what the picture says of the book, and how a picture is read.
    fn put_legend(&self, out: &mut String) -> Result<(), NoMemory>
        ensures { OnOk result (GrowsPlain
            (first_lines (is_some self.now.order) self.now.marks.now self.now.error
            ++ notes_text self.now.kind)
            (string_bytes out.old) (string_bytes out.new)) }
    {
        let title = self.title()?;
        put_line(out, "title", MARGIN, 24, title.as_bytes())?;
        self.put_error(out)?;
        put_notes(out, self.kind)
    }

    // The title of the picture, on the verdict and on the marks.
    fn title(&self) -> Result<String, NoMemory>
        ensures { IfOk result (λ text.
            string_bytes text ≡ title (is_some self.now.order) self.now.marks.now) }
    {
        let verdict = self.verdict();
        let remark = self.marks.remark();
        let text = format!(in self.alloc; "{verdict}{remark}")?;
        Ok(text)
    }

    // What the title of the picture says of the book: that it is legal, or illegal.
    fn verdict(&self) -> &'static str
        ensures { result.now ≡ verdict_text (is_some self.now.order) }
    {
        match self.order {
            Some(_) => "legal: the numbers give an order of the calls that explains all replies",
            None => "illegal: no order explains these replies",
        }
    }

    // Appends the line of text on the first error line of a run, where there is one.
    fn put_error(&self, out: &mut String) -> Result<(), NoMemory>
        ensures { OnOk result (string_bytes out.new
            ≡ string_bytes out.old ++ error_line self.now.error) }
    {
        match self.error {
            None => Ok(()),
            Some(call) => put_error_line(self.alloc, out, call),
        }
    }

    /// The SVG element of the call of an interval, a group.
    pub fn element(&self, interval: &Interval) -> Result<String, NoMemory>
        requires { IsCall self.now.book.now interval.now.call }
        ensures { IfOk result (λ text. IsElementOf
            (class_of_call self.now.kind self.now.book.now self.now.values.now self.now.marks.now)
            (IsShownOf self.now.kind self.now.book.now (option_map (λ o. o.now) self.now.order))
            self.now.rows.now interval.now (string_bytes text)) }
    {
        let caller = interval.call.caller;
        let number = interval.call.number;
        let class = self.class(interval.call)?;
        let inside = self.inside(interval)?;
        let text = format!(in self.alloc;
            "<g id=\"call-{caller}-{number}\" class=\"{class}\">\n{inside}</g>\n"
        )?;
        Ok(text)
    }

    // The classes of a call's element: its colour, and whether it is marked.
    fn class(&self, call: Call) -> Result<String, NoMemory>
        requires { IsCall self.now.book.now call }
        ensures { IfOk result (λ text. string_bytes text ≡ class_of_call
            self.now.kind self.now.book.now self.now.values.now self.now.marks.now call) }
    {
        let value = value_of(self.kind, self.book, call);
        let colour = colour_of(self.values, value);
        let is_marked = self.marks.has(call);
        class_of(self.alloc, colour, is_marked)
    }

    // The inside of a call's element: in each row the call's bar, if it has a part in the row.
    fn inside(&self, interval: &Interval) -> Result<String, NoMemory>
        requires { IsCall self.now.book.now interval.now.call }
        ensures { IfOk result (λ text. (shown : Shown)
            × IsShownOf self.now.kind self.now.book.now (option_map (λ o. o.now) self.now.order)
            interval.now.call shown
            × (is_plain (parts_text self.now.rows.now interval.now shown) ≡ true)
            × (string_bytes text ≡ parts_text self.now.rows.now interval.now shown)) }
    {
        let label = Label::of(self.alloc, self.kind, self.book, interval.call)?;
        let number = self.number(interval.call);
        let mut out = String::new(self.alloc);
        put_parts(&mut out, self.rows, interval, &label, number)?;
        Ok(out)
    }

    // The number of a call in the legal order, counted from 1, where there is an order that has it.
    fn number(&self, call: Call) -> Option<usize>
        ensures { IsNumberIn (option_map (λ o. o.now) self.now.order) call result }
    {
        match self.order {
            Some(order) => number_in(order, call),
            None => None,
        }
    }
}

impl Bar {
    // The further class of a bar's outline, where it has one: `through`, undrawn, where neither of
    // the bar's edges is drawn, and else `open`, dashed, where the call is unanswered.
    fn class(self) -> &'static str
        ensures { result.now ≡ outline_class self }
    {
        if !self.begins && !self.ends {
            " through"
        } else if self.is_open {
            " open"
        } else {
            ""
        }
    }

    // The x coordinate at which a bar's outline begins and ends: that of the right edge where only
    // the left one is drawn, and else that of the left edge.
    fn start(self) -> usize
        ensures { result ≡ outline_start self }
    {
        if self.begins && !self.ends {
            self.right
        } else {
            self.left
        }
    }

    // The x coordinate of the edge that a bar's outline runs down: the left edge where only this is
    // drawn, and else the right one.
    fn turn(self) -> usize
        ensures { result ≡ outline_turn self }
    {
        if self.begins && !self.ends {
            self.left
        } else {
            self.right
        }
    }

    // The path command that closes a bar's outline where both of the bar's edges are drawn or
    // neither is; else nothing.
    fn close(self) -> &'static str
        ensures { result.now ≡ outline_close self }
    {
        if self.begins && !self.ends || !self.begins && self.ends {
            ""
        } else {
            " Z"
        }
    }
}

// The width of a sheet with the given rows, in pixels.
fn width_of(rows: &[Row]) -> usize
    ensures { LEAST_WIDTH ≤ result }
{
    let mut width = LEAST_WIDTH;
    for row in rows {
        let last = row.edges.last().copied().unwrap_or(0);
        width = width.max(last.saturating_add(MARGIN));
    }
    width
}

// The height of a sheet with the given rows, each with a lane for each caller, in pixels.
fn height_of(rows: &[Row], callers: u32) -> usize
    ensures { (k : ℕ) (row : Row) → slice_get rows.now k ≡ Some row
        → lane_top row.top callers ≤ result }
{
    let mut height: usize = 0;
    for row in rows {
        height = height.max(lane_top(row.top, callers));
    }
    height
}

// The height at which the lane of a caller begins in a row that begins at `top`, in pixels.
fn lane_top(top: usize, caller: u32) -> usize
    ensures { result ≡ lane_top top caller }
{
    (caller as usize).saturating_mul(LANE).saturating_add(top)
}

// Appends the line of text that says that a run's first error line is that of the call `call`.
fn put_error_line(alloc: Global, out: &mut String, call: Call) -> Result<(), NoMemory>
    ensures { OnOk result (string_bytes out.new
        ≡ string_bytes out.old ++ line_text (codes "note") 12 80 (error_text call)) }
{
    let Call { caller, number } = call;
    let text = format!(in alloc;
        "the first error line of the run is that of call {number} of caller {caller}"
    )?;
    put_line(out, "note", MARGIN, 80, text.as_bytes())
}

// Appends the two lines of text that say how a picture is read, with the name of the kind.
fn put_notes(out: &mut String, kind: Kind) -> Result<(), NoMemory>
    ensures { OnOk result (GrowsPlain (notes_text kind)
        (string_bytes out.old) (string_bytes out.new)) }
{
    let kind = kind.name();
    write!(
        out,
        "<text class=\"note\" x=\"{MARGIN}\" y=\"44\">{kind}: a bar begins where its call is first \
         seen invoked, and ends with its return.</text>\n\
         <text class=\"note\" x=\"{MARGIN}\" y=\"62\">Where a bar with a reply ends left of another, \
         its call precedes the other.</text>\n"
    )?;
    Ok(())
}

// Appends the lanes of all callers in each row.
fn put_rows(out: &mut String, rows: &[Row], callers: u32, right: usize) -> Result<(), NoMemory>
    ensures { OnOk result (GrowsPlain (rows_text rows.now right callers)
        (string_bytes out.old) (string_bytes out.new)) }
{
    for row in rows {
        put_lanes(out, row.top, callers, right)?;
    }
    Ok(())
}

// Appends the lanes of all callers in the row that begins at the height `top`, in pixels.
fn put_lanes(out: &mut String, top: usize, callers: u32, right: usize) -> Result<(), NoMemory>
    ensures { OnOk result (GrowsPlain (lanes_text top right callers)
        (string_bytes out.old) (string_bytes out.new)) }
{
    for caller in 0..callers {
        put_lane(out, top, caller, right)?;
    }
    Ok(())
}

// Appends a lane: its line, and the number of its caller.
fn put_lane(out: &mut String, top: usize, caller: u32, right: usize) -> Result<(), NoMemory>
    ensures { OnOk result (GrowsPlain (lane_text top right caller)
        (string_bytes out.old) (string_bytes out.new)) }
{
    let middle = lane_top(top, caller).saturating_add(BAR / 2);
    let base = middle.saturating_add(4);
    write!(
        out,
        "<line class=\"lane\" x1=\"100\" y1=\"{middle}\" \
         x2=\"{right}\" y2=\"{middle}\"/>\n\
         <text class=\"note\" x=\"{MARGIN}\" y=\"{base}\">caller {caller}</text>\n"
    )?;
    Ok(())
}

// Appends the bars of an interval, one for each row that has a place of it.
fn put_parts(
    out: &mut String,
    rows: &[Row],
    interval: &Interval,
    label: &Label,
    number: Option<usize>,
) -> Result<(), NoMemory>
    ensures { OnOk result (GrowsPlain
        (parts_text rows.now interval.now (shown_by label.now number))
        (string_bytes out.old) (string_bytes out.new)) }
{
    for row in rows {
        put_part(out, row, interval, label, number)?;
    }
    Ok(())
}

// Appends the bar of an interval in a row, if the row has a place of the interval.
fn put_part(
    out: &mut String,
    row: &Row,
    interval: &Interval,
    label: &Label,
    number: Option<usize>,
) -> Result<(), NoMemory>
    ensures { OnOk result (GrowsPlain
        (part_text interval.now (shown_by label.now number) row.now)
        (string_bytes out.old) (string_bytes out.new)) }
{
    match row.part_of(interval) {
        Some(part) => put_bar(out, bar_of(row, interval, part), label, number),
        None => Ok(()),
    }
}

// The bar that draws the part of an interval in a row.
fn bar_of(row: &Row, interval: &Interval, part: IntervalPart) -> Bar
    requires begin { part.begin < length row.now.edges.items }
    requires end { part.end < length row.now.edges.items }
    ensures { result ≡ bar_of row.now interval.now part }
{
    Bar {
        left: row.edges[part.begin].saturating_add(GAP),
        right: row.edges[part.end].saturating_sub(GAP),
        top: lane_top(row.top, interval.call.caller),
        begins: part.begins,
        ends: part.ends && !interval.is_open,
        is_open: interval.is_open,
    }
}

// Appends a bar, with its label and, where the legal order has its call, the number in the order.
fn put_bar(out: &mut String, bar: Bar, label: &Label, number: Option<usize>) -> Result<(), NoMemory>
    ensures { OnOk result (GrowsPlain (bar_text bar (shown_by label.now number))
        (string_bytes out.old) (string_bytes out.new)) }
{
    put_outline(out, bar)?;
    put_label(out, bar, label)?;
    put_number(out, bar, number)
}

// Appends the outline of a bar.
fn put_outline(out: &mut String, bar: Bar) -> Result<(), NoMemory>
    ensures { OnOk result (GrowsPlain (outline_text bar)
        (string_bytes out.old) (string_bytes out.new)) }
{
    let class = bar.class();
    let start = bar.start();
    let turn = bar.turn();
    let close = bar.close();
    let top = bar.top;
    let bottom = top.saturating_add(BAR);
    write!(
        out,
        "<path class=\"bar{class}\" d=\"M {start} {top} H {turn} V {bottom} H {start}{close}\"/>\n"
    )?;
    Ok(())
}

// Appends the label of a bar: the operation, and below it the reply.
fn put_label(out: &mut String, bar: Bar, label: &Label) -> Result<(), NoMemory>
    ensures { OnOk result (GrowsPlain
        (label_text bar label.now.operation.items label.now.reply.items)
        (string_bytes out.old) (string_bytes out.new)) }
{
    let x = bar.left.saturating_add(9);
    put_line(out, "call", x, bar.top.saturating_add(18), &label.operation)?;
    put_line(out, "call", x, bar.top.saturating_add(36), &label.reply)
}

// Appends the call's number in the legal order to its bar, where it has one.
fn put_number(out: &mut String, bar: Bar, number: Option<usize>) -> Result<(), NoMemory>
    ensures { OnOk result (GrowsPlain (number_text bar number)
        (string_bytes out.old) (string_bytes out.new)) }
{
    if let Some(number) = number {
        let x = bar.right.saturating_sub(15);
        let y = bar.top.saturating_add(15);
        let base = y.saturating_add(4);
        write!(
            out,
            "<circle class=\"badge\" cx=\"{x}\" cy=\"{y}\" r=\"11\"/>\n\
             <text class=\"number\" x=\"{x}\" y=\"{base}\">{number}</text>\n"
        )?;
    }
    Ok(())
}

// Appends the SVG element of a line of text, escaped, with its class and its coordinates in pixels.
fn put_line(out: &mut String, class: &str, x: usize, y: usize, text: &[u8]) -> Result<(), NoMemory>
    ensures { OnOk result (string_bytes out.new
        ≡ string_bytes out.old ++ line_text class.now x y text.now) }
{
    write!(out, "<text class=\"{class}\" x=\"{x}\" y=\"{y}\">")?;
    put_escaped(out, text)?;
    out.push_str("</text>\n")?;
    Ok(())
}
