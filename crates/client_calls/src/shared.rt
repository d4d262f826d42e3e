use row_table::Rows;
use world_core::{Outside, Program};

/// What all clients share: the rows of the table, and the object that they ask.
#[derive(Drop)]
pub struct Shared<'a, A, P: Program = Outside> {
    pub rows: &'a Rows<P>,
    pub asks: &'a A,
}
