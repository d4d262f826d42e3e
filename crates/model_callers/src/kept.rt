use row_gather::Gathered;
use row_table::Rows;
use std::alloc::Global;
use std::sync::Arc;
use told_models::ToldTable;

/// What a caller keeps from call to call: the table of callers; what was told of the model; and the
/// book of its last delivered call, from which the next one grows.
#[derive(Drop)]
pub struct KeptByModel {
    pub rows: Arc<Rows, Global>,
    pub table: ToldTable,
    pub gathered: Option<Gathered>,
}
