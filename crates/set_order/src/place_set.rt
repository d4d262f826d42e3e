ghost use Rattle.std.specs.Prelude.{◌≡◌, IfOk};

use book_base::{NoMemory, Place};
use std::alloc::Global;
use std::marker::Model;

/// A set of calls that are served at once: their places, in the order of their callers. Clauses see
/// it as the list of these places.
#[derive(Debug, Drop)]
pub struct PlaceSet {
    places: Vec<Place>,
}

impl Model for PlaceSet {
    ghost use Rattle.std.specs.Prelude.{List};
    ghost use Rattle.book_base.specs.declared.call.Place.{Place};

    ghost Value = { List Place };

    ghost view = { λ s. s.places.items };
}

impl PlaceSet {
    /// The set with these places.
    pub(crate) fn new(places: Vec<Place>) -> PlaceSet
        ensures { result ≡ places.items }
    {
        PlaceSet { places }
    }

    /// The places of the set's calls, in the order of their callers.
    pub fn places(&self) -> &[Place]
        ensures { result.now ≡ self.now }
    {
        &self.places
    }

    /// A copy of the set.
    pub(crate) fn copy(&self, alloc: Global) -> Result<PlaceSet, NoMemory>
        ensures { IfOk result (λ set. set ≡ self.now) }
    {
        Ok(PlaceSet {
            places: Vec::from_slice(alloc, &self.places)?,
        })
    }
}
