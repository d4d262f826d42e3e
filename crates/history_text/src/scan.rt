//! The items of a line, byte by byte: an item is an atom, a text in quotes, or a group in brackets.

ghost use Rattle.std.specs.Prelude.{◌≡◌, ◌+◌, ◌<◌, ◌^◌};
ghost use Rattle.history_text.specs.Scan.{sort_of, step_of, IsPlaceBefore, IsStepWithin};

/// What a byte is to the reader of items.
#[derive(Clone, Copy, PartialEq, Eq)]
pub enum Sort {
    /// It separates items: a space, a tab, a carriage return or a comma; in JSON a colon too.
    Gap,
    /// It begins a group.
    Opens,
    /// It ends a group.
    Closes,
    /// It begins or ends a text.
    Quote,
    /// In a text it takes the next byte as it is.
    Escape,
    /// It is part of an atom.
    Plain,
}

/// Where the reader of items stands.
#[derive(Clone, Copy, PartialEq, Eq)]
pub enum Place {
    /// Between items.
    Between,
    /// In an atom that begins at this place of the line.
    Atom(usize),
    /// In a group that begins at this place, in as many brackets.
    Group(usize, usize),
    /// In a text: that of an item that begins at this place, in as many brackets.
    Text(usize, usize),
    /// After an escape in such a text.
    Escaped(usize, usize),
}

/// What a byte leads to.
#[derive(Clone, Copy, PartialEq, Eq)]
pub enum Step {
    /// The reader stands here.
    Goes(Place),
    /// The item that began at the first place ends before the second, and the reader is between
    /// items.
    Ends(usize, usize),
    /// A group ends that didn't begin.
    Wrong,
}

/// What a byte is to the reader of items, in JSON or in EDN.
pub fn sort_of(json: bool, byte: u8) -> Sort
    ensures { result ≡ sort_of json byte }
{
    match byte {
        b' ' | b'\t' | b'\r' | b',' => Sort::Gap,
        b':' if json => Sort::Gap,
        b'{' | b'[' | b'(' => Sort::Opens,
        b'}' | b']' | b')' => Sort::Closes,
        b'"' => Sort::Quote,
        b'\\' => Sort::Escape,
        _ => Sort::Plain,
    }
}

/// What a byte of this sort, at this place of the line, leads to.
pub fn step_of(place: Place, at: usize, sort: Sort) -> Step
    requires place { IsPlaceBefore at place }
    requires fits { at + 1 < 2 ^ 64 }
    ensures step { result ≡ step_of place at sort }
    ensures within { IsStepWithin at result }
{
    match place {
        Place::Between => match sort {
            Sort::Gap => Step::Goes(Place::Between),
            Sort::Opens => Step::Goes(Place::Group(at, 1)),
            Sort::Closes => Step::Wrong,
            Sort::Quote => Step::Goes(Place::Text(at, 0)),
            _ => Step::Goes(Place::Atom(at)),
        },
        Place::Atom(start) => match sort {
            Sort::Gap => Step::Ends(start, at),
            Sort::Opens => Step::Goes(Place::Group(start, 1)),
            Sort::Closes => Step::Wrong,
            Sort::Quote => Step::Goes(Place::Text(start, 0)),
            _ => Step::Goes(Place::Atom(start)),
        },
        Place::Group(start, depth) => match sort {
            Sort::Opens => Step::Goes(Place::Group(start, depth + 1)),
            Sort::Closes if depth <= 1 => Step::Ends(start, at + 1),
            Sort::Closes => Step::Goes(Place::Group(start, depth - 1)),
            Sort::Quote => Step::Goes(Place::Text(start, depth)),
            _ => Step::Goes(Place::Group(start, depth)),
        },
        Place::Text(start, depth) => match sort {
            Sort::Escape => Step::Goes(Place::Escaped(start, depth)),
            Sort::Quote if depth == 0 => Step::Ends(start, at + 1),
            Sort::Quote => Step::Goes(Place::Group(start, depth)),
            _ => Step::Goes(Place::Text(start, depth)),
        },
        Place::Escaped(start, depth) => Step::Goes(Place::Text(start, depth)),
    }
}
