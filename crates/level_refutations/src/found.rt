//! The table that a search comes to.

use crate::entry::LevelEntry;
use crate::node::Node;
use book_base::{MAX_CALLERS, NoMemory};
use indexmap::IndexSet;
use std::alloc::Global;

/// The next call of a caller after the cut with this number, and the counts of the cut after it.
#[derive(Clone, Copy)]
pub struct Step {
    pub from: u64,
    pub caller: u32,
    pub after: [u16; MAX_CALLERS],
}

/// What was found of a level: the levels that may lie right below it; the cuts after which it is on
/// top; and the cuts right after its item is taken out.
#[derive(Drop)]
pub struct FoundLevel {
    pub below: IndexSet<u64>,
    pub cuts: IndexSet<u64>,
    pub left: IndexSet<u64>,
}

/// A table as far as it was found. Puts of the same item that lead to the same cut begin the same
/// level, whatever lies below.
#[derive(Drop)]
pub struct FoundTable {
    /// The counts of each cut.
    pub cuts: IndexSet<[u16; MAX_CALLERS]>,
    /// How each cut but the first is made of an earlier one.
    pub steps: Vec<Step>,
    /// The levels, of which the first is that of the empty stack.
    pub levels: Vec<FoundLevel>,
    /// Of each level but the first its item, and the cut right after this is put in.
    pub items: IndexSet<(u32, u64)>,
    /// The nodes in the order in which they were reached.
    pub nodes: Vec<Node>,
    /// How often a call led to a node, new or not.
    pub links: u64,
}

impl FoundLevel {
    fn new(alloc: Global) -> FoundLevel {
        FoundLevel {
            below: IndexSet::new(alloc),
            cuts: IndexSet::new(alloc),
            left: IndexSet::new(alloc),
        }
    }
}

impl FoundTable {
    /// The table whose one node is the empty stack after no call.
    pub fn start(alloc: Global) -> Result<FoundTable, NoMemory> {
        let mut table = FoundTable {
            cuts: IndexSet::new(alloc),
            steps: Vec::new(alloc),
            levels: Vec::new(alloc),
            items: IndexSet::new(alloc),
            nodes: Vec::new(alloc),
            links: 0,
        };
        let _is_new = table.cuts.insert([0; MAX_CALLERS])?;
        table.levels.push(FoundLevel::new(alloc))?;
        table.add_node(0, 0)?;
        Ok(table)
    }

    /// The item of a level, if it isn't that of the empty stack.
    pub fn item(&self, level: u64) -> Option<u32> {
        if level == 0 {
            return None;
        }
        match self.items.get_index(level as usize - 1) {
            Some(item) => Some(item.0),
            None => None,
        }
    }

    /// Adds that a level stays on top after a step.
    pub fn stay(&mut self, level: u64, step: Step) -> Result<(), NoMemory> {
        let cut = self.cut_after(step)?;
        self.add_node(level, cut)
    }

    /// Adds that an item is put in above a level by a step.
    pub fn push(
        &mut self,
        alloc: Global,
        level: u64,
        value: u32,
        step: Step,
    ) -> Result<(), NoMemory> {
        let cut = self.cut_after(step)?;
        let (index, is_new) = self.items.insert_full((value, cut))?;
        if is_new {
            self.levels.push(FoundLevel::new(alloc))?;
        }
        let above = (index as u64).saturating_add(1);
        self.add_node(above, cut)?;
        self.add_below(above, level)
    }

    /// Adds that the item of a level is taken out by a step: each level that may lie below it is on
    /// top then.
    pub fn pop(&mut self, level: u64, step: Step) -> Result<(), NoMemory> {
        let cut = self.cut_after(step)?;
        let Some(found) = self.levels.get_mut(level as usize) else {
            return Ok(());
        };
        if !found.left.insert(cut)? {
            return Ok(());
        }
        for k in 0..found.below.len() {
            if let Some(below) = self.below_at(level, k) {
                self.add_node(below, cut)?;
            }
        }
        Ok(())
    }

    // Adds that a level may lie right below another one: it is on top wherever the item of this one
    // is taken out.
    fn add_below(&mut self, level: u64, below: u64) -> Result<(), NoMemory> {
        let Some(found) = self.levels.get_mut(level as usize) else {
            return Ok(());
        };
        if !found.below.insert(below)? {
            return Ok(());
        }
        for k in 0..found.left.len() {
            if let Some(cut) = self.left_at(level, k) {
                self.add_node(below, cut)?;
            }
        }
        Ok(())
    }

    // Adds a level with a cut as a node, where it isn't one yet.
    fn add_node(&mut self, level: u64, cut: u64) -> Result<(), NoMemory> {
        self.links = self.links.saturating_add(1);
        let Some(found) = self.levels.get_mut(level as usize) else {
            return Ok(());
        };
        if found.cuts.insert(cut)? {
            self.nodes.push(Node { level, cut })?;
        }
        Ok(())
    }

    // The number of the cut after a step.
    fn cut_after(&mut self, step: Step) -> Result<u64, NoMemory> {
        let (number, is_new) = self.cuts.insert_full(step.after)?;
        if is_new {
            self.steps.push(step)?;
        }
        Ok(number as u64)
    }

    fn below_at(&self, level: u64, k: usize) -> Option<u64> {
        self.levels.get(level as usize)?.below.get_index(k).copied()
    }

    fn left_at(&self, level: u64, k: usize) -> Option<u64> {
        self.levels.get(level as usize)?.left.get_index(k).copied()
    }

    /// The entries that make the table: its cuts, its levels and its nodes.
    pub fn entries(&self, alloc: Global) -> Result<Vec<LevelEntry>, NoMemory> {
        let mut entries = Vec::new(alloc);
        for step in &self.steps {
            entries.push(LevelEntry::Cut(step.from, u64::from(step.caller)))?;
        }
        self.push_levels(alloc, &mut entries)?;
        for level in 0..self.levels.len() {
            let cuts = numbers_in(alloc, &self.levels[level].cuts)?;
            entries.push(LevelEntry::At(level as u64, cuts))?;
        }
        Ok(entries)
    }

    // Appends the entries that make the levels.
    fn push_levels(&self, alloc: Global, entries: &mut Vec<LevelEntry>) -> Result<(), NoMemory> {
        for level in 1..self.levels.len() {
            if let Some(value) = self.item(level as u64) {
                let below = numbers_in(alloc, &self.levels[level].below)?;
                entries.push(LevelEntry::Level(value, below))?;
            }
        }
        Ok(())
    }
}

// The numbers of a set.
fn numbers_in(alloc: Global, set: &IndexSet<u64>) -> Result<Vec<u64>, NoMemory> {
    let mut numbers = Vec::new(alloc);
    for k in 0..set.len() {
        if let Some(number) = set.get_index(k) {
            numbers.push(*number)?;
        }
    }
    Ok(numbers)
}
