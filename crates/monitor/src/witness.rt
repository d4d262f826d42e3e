ghost use Rattle.std.specs.Prelude.{◌≡◌, IfOk};

use book_base::{Book, Cut, NoMemory};
use std::alloc::Global;

/// A book without a legal order, and the cut that it is at.
#[derive(Debug, Drop)]
pub struct Witness {
    pub cut: Cut,
    pub book: Book,
}

impl Witness {
    /// A copy of the witness, equal to it.
    pub fn copy(&self, alloc: Global) -> Result<Witness, NoMemory>
        ensures { IfOk result (λ copy. copy ≡ self.now) }
    {
        Ok(Witness {
            cut: self.cut,
            book: self.book.copy(alloc)?,
        })
    }
}
