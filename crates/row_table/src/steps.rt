ghost use Rattle.std.specs.Prelude.{◌≡◌, ℕ, ◌+◌, ◌<◌};

use std::marker::Model;
use std::sync::ledger::{Blank, Book, Ledger, Share};

/// A counter of steps, which has no bytes at run time. Clauses see it as the number of its ticks.
///
/// Only looks and peeks tick. A caller whose steps nobody counts has a counter made from
/// `Blank::new(1)`.
#[derive(Drop)]
pub struct Steps<L: Ledger> {
    book: Book<L>,
    share: Share<L>,
}

impl<L: Ledger> Model for Steps<L> {
    ghost Value = { ℕ };

    ghost view = { λ s. s.book.total };

    ghost invariant = { λ s. 0 < s.share.parts };
}

impl<L: Ledger> Steps<L> {
    /// A counter at 0.
    pub fn new(blank: Blank) -> Steps<L>
        // The blank has the name of the ledger.
        requires name { blank.name ≡ L.name }
        // The blank has all parts of the ledger, at least one.
        requires parts { (blank.parts ≡ L.parts) × (0 < blank.parts) }
        ensures { result ≡ 0 }
    {
        let (book, share) = blank.open::<L>();
        Steps { book, share }
    }

    /// Counts one step more.
    pub(crate) fn tick(&mut self)
        ensures { self.new ≡ self.old + 1 }
    {
        self.book.add(&mut self.share, 1);
    }
}
