ghost use Rattle.std.specs.Prelude.{◌≡◌, ℕ, ◌+◌, ◌<◌, List, length, take, Some, slice_get, IfOk, IfSome, IfNone, OnOk};
ghost use Rattle.level_refutations.specs.Closed.{Level, bottom, levels_of};
ghost use Rattle.level_refutations.specs.Stored.{AreLevels};

use crate::above::Above;
use crate::entry::LevelEntry;
use book_base::NoMemory;
use std::alloc::Global;

/// The levels that entries make: for each of them, in their order, the number of its entry, counted
/// from 0; and which levels may lie right above which.
#[derive(Drop)]
pub struct Levels {
    pub makers: Vec<usize>,
    pub above: Above,
}

impl Levels {
    /// The levels that entries make.
    pub fn of(alloc: Global, entries: &[LevelEntry]) -> Result<Levels, NoMemory>
        ensures { IfOk result (λ levels. AreLevels entries.now levels (levels_of entries.now)) }
    {
        let mut levels = Levels {
            makers: Vec::new(alloc),
            above: Above::new(alloc),
        };
        for k in 0..entries.len() {
            levels.add(alloc, entries, k)?;
        }
        Ok(levels)
    }

    // Adds the level that the entry with a number makes, where it makes one.
    fn add(&mut self, alloc: Global, entries: &[LevelEntry], k: usize) -> Result<(), NoMemory>
        requires within { k < length entries.now }
        requires before { AreLevels entries.now self.old (levels_of (take k entries.now)) }
        ensures { OnOk result
            (AreLevels entries.now self.new (levels_of (take (k + 1) entries.now))) }
    {
        if let LevelEntry::Level(value, below) = &entries[k] {
            self.makers.push(k)?;
            let level = self.makers.len() as u64;
            self.above.add_all(alloc, *value, below, level)?;
        }
        Ok(())
    }

    /// How many levels there are, with that of the empty stack.
    pub fn len(&self) -> u64
        ensures { (entries : List LevelEntry) (levels : List Level)
            → AreLevels entries self.now levels → result ≡ length levels }
    {
        self.makers.len() as u64 + 1
    }

    /// The item on top of the level with a number, and the levels that may lie right below it;
    /// there is none at the level of the empty stack.
    pub fn get<'e>(&self, entries: &'e [LevelEntry], number: u64) -> Option<(u32, &'e [u64])>
        ensures level { IfSome result (λ level. (levels : List Level)
            → AreLevels entries.now self.now levels → slice_get levels number
            ≡ Some (record { top = Some level.0; below = level.1.now })) }
        ensures bottom { IfNone result ((levels : List Level)
            → AreLevels entries.now self.now levels → number < length levels
            → slice_get levels number ≡ Some bottom) }
    {
        if number == 0 || number > self.makers.len() as u64 {
            return None;
        }
        let maker = self.makers[number as usize - 1];
        if maker >= entries.len() {
            return None;
        }
        match &entries[maker] {
            LevelEntry::Level(value, below) => Some((*value, below)),
            _ => None,
        }
    }
}
