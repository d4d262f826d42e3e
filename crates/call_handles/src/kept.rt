use enforcer::Gathered;
use frontier_check::KeptOrder;
use row_table::Rows;
use seq_objects::Kind;
use std::alloc::Global;
use std::sync::Arc;

/// What the handle of a caller keeps from call to call: the table; the kind by which calls are
/// judged; the book that the caller gathered last, from which the next one grows; and the kept
/// order that stands in this book, after which the next search begins.
#[derive(Drop)]
pub struct KeptByHandle {
    pub rows: Arc<Rows, Global>,
    pub kind: Kind,
    pub gathered: Option<Gathered>,
    pub standing: Option<KeptOrder>,
}
