ghost use Rattle.std.specs.Prelude.{◌≡◌, ◌↔◌, ℕ, ◌⊎◌, Some, slice_get, IfOk, OnOk};
ghost use Rattle.level_refutations.specs.Closed.{IsOneOf};
ghost use Rattle.level_refutations.specs.Stored.{Names, AreEven};

use book_base::NoMemory;
use indexmap::IndexSet;
use std::alloc::Global;

/// An item, and the number of a level right above which it may lie.
#[derive(Clone, Copy, Debug, PartialEq, Eq, Hash)]
pub struct Base {
    pub value: u32,
    pub below: u64,
}

/// For each base the levels that name it: at the index of the base among `bases` the list of their
/// numbers.
#[derive(Drop)]
pub struct Above {
    pub bases: IndexSet<Base>,
    pub levels: Vec<Vec<u64>>,
}

impl Above {
    /// The table without levels.
    pub fn new(alloc: Global) -> Above
        ensures even { AreEven result }
        ensures none { (v l m : ℕ) → Names result v l m → ⊥ }
    {
        Above {
            bases: IndexSet::new(alloc),
            levels: Vec::new(alloc),
        }
    }

    /// Adds that the level `level` has the item `value`, which may lie right above each of `below`.
    pub fn add_all(
        &mut self,
        alloc: Global,
        value: u32,
        below: &[u64],
        level: u64,
    ) -> Result<(), NoMemory>
        requires { AreEven self.old }
        ensures even { OnOk result (AreEven self.new) }
        ensures named { OnOk result ((v l m : ℕ) → Names self.new v l m
            ↔ (Names self.old v l m ⊎ ((v ≡ value) × IsOneOf below.now l × (m ≡ level)))) }
    {
        for k in 0..below.len() {
            self.add(alloc, value, below[k], level)?;
        }
        Ok(())
    }

    // Adds that the level `level` has the item `value`, which may lie right above `below`.
    fn add(&mut self, alloc: Global, value: u32, below: u64, level: u64) -> Result<(), NoMemory>
        requires { AreEven self.old }
        ensures even { OnOk result (AreEven self.new) }
        ensures named { OnOk result ((v l m : ℕ) → Names self.new v l m
            ↔ (Names self.old v l m ⊎ ((v ≡ value) × (l ≡ below) × (m ≡ level)))) }
    {
        let index = self.place(alloc, Base { value, below })?;
        self.levels[index].push(level)?;
        Ok(())
    }

    // The index of a base, which is added without levels where it isn't there.
    fn place(&mut self, alloc: Global, base: Base) -> Result<usize, NoMemory>
        requires { AreEven self.old }
        ensures even { OnOk result (AreEven self.new) }
        ensures named { OnOk result
            ((v l m : ℕ) → Names self.new v l m ↔ Names self.old v l m) }
        ensures index { IfOk result (λ index. slice_get self.new.bases.keys index ≡ Some base) }
    {
        let (index, is_new) = self.bases.insert_full(base)?;
        if is_new {
            self.levels.push(Vec::new(alloc))?;
        }
        Ok(index)
    }

    /// The numbers of the levels that have the item `value`, which may lie right above `below`.
    pub fn get(&self, value: u32, below: u64) -> &[u64]
        requires { AreEven self.now }
        ensures { (m : ℕ) → IsOneOf result.now m ↔ Names self.now value below m }
    {
        match self.bases.get_index_of(&Base { value, below }) {
            Some(index) => &self.levels[index],
            None => &[],
        }
    }
}
