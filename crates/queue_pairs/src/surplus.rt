use crate::table::{QueueDeal, Table};
use book_base::NoMemory;
use std::alloc::Global;
use std::collections::BTreeMap;

/// For each value, by how many the puts of it that some view holds outnumber its answered takes, or
/// 0 where they don't. So many unanswered takes may take the value out.
#[derive(Drop)]
pub struct Surplus {
    by_value: BTreeMap<u64, usize>,
}

impl Surplus {
    /// The surplus of puts over answered takes, for each value of a book.
    pub fn of(alloc: Global, table: &Table) -> Result<Surplus, NoMemory> {
        let mut surplus = Surplus {
            by_value: BTreeMap::new(alloc),
        };
        for row in &table.rows {
            for timed in row {
                if let QueueDeal::Put(value) = timed.deal
                    && timed.is_held()
                {
                    let more = surplus.of_value(value).saturating_add(1);
                    surplus.by_value.insert(value, more)?;
                }
            }
        }
        for row in &table.rows {
            for timed in row {
                if let QueueDeal::Took(value) = timed.deal {
                    let less = surplus.of_value(value).saturating_sub(1);
                    surplus.by_value.insert(value, less)?;
                }
            }
        }
        Ok(surplus)
    }

    /// By how many the puts of a value that some view holds outnumber its answered takes, or 0
    /// where they don't.
    pub fn of_value(&self, value: u64) -> usize {
        match self.by_value.get(&value) {
            Some(more) => *more,
            None => 0,
        }
    }
}
