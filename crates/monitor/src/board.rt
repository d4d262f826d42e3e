use crate::witness::Witness;
use once_cell::race::OnceBox;
use std::alloc::Global;

/// A board for the first witness that a monitor puts on it: the witness stays there, and nobody
/// waits for it.
#[derive(Drop)]
pub struct Board {
    pub(crate) cell: OnceBox<Witness>,
}

impl Board {
    /// A board without a witness. It takes no memory.
    pub fn new(alloc: Global) -> Board {
        Board {
            cell: OnceBox::new(alloc),
        }
    }
}
