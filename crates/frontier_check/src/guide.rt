ghost use Rattle.std.specs.Prelude.{◌≡◌, [], IfOk, OnOk};

use book_base::{NoMemory, Place};
use std::alloc::Global;
use std::marker::Model;

/// The last legal order that was found. The next search first tries to begin with its places. A
/// guide has no places where no order was found yet.
///
/// Clauses see a guide as the list of its places. A search is right with any places: they only
/// decide how long it takes, and which legal order it finds where a book has several.
#[derive(Debug, Drop)]
pub struct Guide {
    order: Vec<Place>,
}

impl Model for Guide {
    ghost use Rattle.std.specs.Prelude.{List};
    ghost use Rattle.book_base.specs.declared.call.Place.{Place};

    ghost Value = { List Place };

    ghost view = { λ g. g.order.items };
}

impl Guide {
    /// A guide without places, for which no search has found an order yet.
    pub fn new(alloc: Global) -> Result<Guide, NoMemory>
        ensures { IfOk result (λ guide. guide ≡ []) }
    {
        Ok(Guide {
            order: Vec::new(alloc),
        })
    }

    /// The places of the order that the guide keeps.
    pub fn places(&self) -> &[Place]
        ensures { result.now ≡ self.now }
    {
        &self.order
    }

    /// Keeps the places of another order instead of those that the guide had.
    pub fn keep(&mut self, alloc: Global, order: &[Place]) -> Result<(), NoMemory>
        ensures { OnOk result (self.new ≡ order.now) }
    {
        self.order = Vec::from_slice(alloc, order)?;
        Ok(())
    }
}
