//! A row of a picture, and the part of an interval in it.

ghost use Rattle.std.specs.Prelude.{◌≡◌, ◌-◌, ◌<◌, ◌≤◌, length, IfSome};
ghost use Rattle.book_picture.specs.Rows.{part_in};

use sketch::Interval;

/// How many places of a sketch a row has at most: two for each of a dozen calls.
pub(crate) const ROW_PLACES: usize = 24;

/// The places of a row: the first of them, and how many there are.
#[derive(Clone, Copy, Debug)]
pub(crate) struct Stretch {
    pub first: usize,
    pub places: usize,
}

/// A row: its first place, the height at which its lanes begin, and the edges of its columns, in
/// pixels.
#[derive(Debug, Drop)]
pub(crate) struct Row {
    pub first: usize,
    pub top: usize,
    pub edges: Vec<usize>,
}

/// The part of an interval in a row: the indices of the edges at which the part begins and ends,
/// and whether the interval itself begins and ends at these edges.
#[derive(Clone, Copy, Debug)]
pub(crate) struct IntervalPart {
    pub begin: usize,
    pub end: usize,
    pub begins: bool,
    pub ends: bool,
}

impl Stretch {
    /// The part of an interval that is on the places of the row, or `None` where no place of the
    /// interval is.
    pub fn part_of(self, interval: &Interval) -> Option<IntervalPart>
        ensures part { result ≡ part_in self.first self.places interval.now }
        ensures place { IfSome result (λ part. (part.begin < part.end) × (part.end ≤ self.places)) }
    {
        let begin = interval.begin.saturating_sub(self.first);
        let until = interval.end.saturating_sub(self.first);
        let end = until.min(self.places);
        if begin < end {
            Some(IntervalPart {
                begin,
                end,
                begins: self.first <= interval.begin,
                ends: until <= self.places,
            })
        } else {
            None
        }
    }
}

impl Row {
    /// The part of an interval in the row, if it has one.
    pub fn part_of(&self, interval: &Interval) -> Option<IntervalPart>
        ensures part { result
            ≡ part_in self.now.first (length self.now.edges.items - 1) interval.now }
        ensures place { IfSome result (λ part. (part.begin < part.end)
            × (part.end < length self.now.edges.items)) }
    {
        let stretch = Stretch {
            first: self.first,
            places: self.edges.len().saturating_sub(1),
        };
        stretch.part_of(interval)
    }
}
