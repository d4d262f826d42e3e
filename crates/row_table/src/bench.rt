ghost use Rattle.std.specs.Prelude.{◌≡◌, ℕ, ◌<◌, ◌↔◌, [], IsTrue, map};
ghost use Rattle.row_table.specs.Benches.{kept_notes};
ghost use Rattle.row_table.specs.Notes.{notes_from};

use crate::held::Held;
use crate::notes::Notes;
use crate::stance::Stance;
use atomic_table::Seat;
use std::marker::PhantomData;
use world_core::{Local, Outside};

/// What a bench keeps of a caller that is on it: its notes and its stance.
#[derive(Debug, Drop)]
pub struct Kept {
    pub notes: Notes,
    pub stance: Stance,
}

/// The parked callers of a table, each with its local. The callers of a bench that is dropped make
/// no more steps.
#[derive(Drop)]
pub struct Bench<P = Outside> {
    pub(crate) callers: u32,
    pub(crate) cap: u64,
    pub(crate) places: Vec<Option<Kept>>,
    pub(crate) seat: Seat<(), Held<Local>>,
    pub(crate) of: PhantomData<P>,
    ghost quiet: { seat.me.1 ≡ [] },
    ghost tied: { map kept_notes places.items ≡ notes_from callers 0 seat.me.0 },
}

impl<P> Bench<P> {
    ghost use Rattle.row_table.specs.Callers.{Holds};

    /// Whether the bench holds the caller with this number.
    pub fn holds(&self, caller: u32) -> bool
        ensures { IsTrue result ↔ Holds self.now caller }
    {
        let place = caller as usize;
        if place >= self.places.len() {
            return false;
        }
        self.places[place].is_some()
    }
}
