ghost use Rattle.std.specs.Prelude.{◌≡◌, ◌↔◌, ℕ, ◌≤◌, ◌∷◌, ◌++◌, [], List, length, slice_get, Some, IfSome, IfNone, OnOk, IsTrue};
ghost use Rattle.book_base.specs.SeqSpec.{SeqSpec};
ghost use Rattle.book_base.specs.Book.{Page};
ghost use Rattle.refutations.specs.Closed.{Item, IsOneItem};
ghost use Rattle.refutations.specs.Stored.{item_of, Fits, AreFit, AreListed};

use crate::stored_item::StoredItem;
use book_base::NoMemory;
use indexmap::IndexSet;
use std::alloc::Global;

/// A list of items, in which equal items are stored once: at each number of the list the index of
/// its item among the stored ones.
#[derive(Drop)]
pub struct Items {
    pub stored: IndexSet<StoredItem>,
    pub indices: Vec<usize>,
}

impl Items {
    /// The list without items.
    pub fn new(alloc: Global) -> Items
        ensures listed { AreListed result [] }
        ensures fit { (spec : SeqSpec) (book : List Page) (capacity : ℕ)
            → AreFit spec book capacity result }
    {
        Items {
            stored: IndexSet::new(alloc),
            indices: Vec::new(alloc),
        }
    }

    /// How many items the list has.
    pub fn len(&self) -> usize
        ensures { result ≡ length self.now.indices.items }
    {
        self.indices.len()
    }

    /// Adds an item at the end.
    pub fn push(&mut self, item: StoredItem) -> Result<(), NoMemory>
        ensures listed { OnOk result ((list : List Item) → AreListed self.old list
            → AreListed self.new (list ++ item_of item ∷ [])) }
        ensures fit { OnOk result ((spec : SeqSpec) (book : List Page) (capacity : ℕ)
            → AreFit spec book capacity self.old → Fits spec book capacity (item_of item)
            → AreFit spec book capacity self.new) }
    {
        let (index, _is_new) = self.stored.insert_full(item)?;
        self.indices.push(index)?;
        Ok(())
    }

    /// The item with a number; there is none where the list is no longer than the number.
    pub fn get(&self, number: u64) -> Option<&StoredItem>
        ensures item { IfSome result (λ item. (list : List Item) → AreListed self.now list
            → slice_get list number ≡ Some (item_of item.now)) }
        ensures stored { IfSome result
            (λ item. (index : ℕ) × (slice_get self.now.stored.keys index ≡ Some item.now)) }
        ensures none { IfNone result
            ((list : List Item) → AreListed self.now list → length list ≤ number) }
    {
        if number >= self.indices.len() as u64 {
            return None;
        }
        self.stored.get_index(self.indices[number as usize])
    }

    /// Whether an item is one of the list.
    pub fn has(&self, item: &StoredItem) -> bool
        ensures { (list : List Item) → AreListed self.now list
            → IsTrue result ↔ IsOneItem list (item_of item.now) }
    {
        self.stored.contains(item)
    }
}
