use book_base::Record;
use row_gather::Gathered;
use row_table::Caller;

/// A published call: its caller, its record, and the book that the caller has gathered at the cut
/// that it has seen since.
#[derive(Drop)]
pub struct GatheredCall {
    pub caller: Caller,
    pub record: Record,
    pub gathered: Gathered,
}
