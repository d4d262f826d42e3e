ghost use Rattle.std.specs.Prelude.{◌≡◌, option_map};
ghost use Rattle.history_text.specs.Entry.{IsMoment, moment_at, is_wrong, lasts_wrong};

use crate::item::{is_nothing, plain};
use seq_objects::number;

/// The moment that a field says.
#[derive(Clone, Copy)]
pub enum Moment {
    /// It says none, or is missing.
    Missing,
    /// It says a number.
    At(u64),
    /// It says something else.
    Wrong,
}

impl Moment {
    /// The moment that an item says.
    pub fn of(item: Option<&[u8]>) -> Moment
        ensures { IsMoment (option_map (λ item. item.now) item.entry) result }
    {
        let Some(item) = item else {
            return Moment::Missing;
        };
        if is_nothing(item) {
            return Moment::Missing;
        }
        match number(plain(item)) {
            Some(moment) => Moment::At(moment),
            None => Moment::Wrong,
        }
    }

    /// The moment, where there is one.
    pub fn at(self) -> Option<u64>
        ensures { result ≡ moment_at self }
    {
        match self {
            Moment::At(moment) => Some(moment),
            _ => None,
        }
    }

    /// Whether the item says something that is no moment.
    pub fn is_wrong(self) -> bool
        ensures { result ≡ is_wrong self }
    {
        matches!(self, Moment::Wrong)
    }

    /// Whether no call can last from the one moment to the other one, which may be missing.
    pub fn lasts_wrong(self, end: Moment) -> bool
        ensures { result ≡ lasts_wrong self end }
    {
        match (self, end) {
            (Moment::At(start), Moment::At(end)) => end < start,
            (Moment::At(_), Moment::Missing) => false,
            _ => true,
        }
    }
}
