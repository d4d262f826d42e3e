use thiserror::Error;

/// Why entries make no closed list. Entries are counted from 1 and items from 0, where item 0 is
/// the one before all calls.
///
/// Entries are tried first, and then items, each with all its tests in the order of the variants.
#[derive(Clone, Copy, Debug, PartialEq, Eq, Error)]
pub enum ClosedFault {
    /// This entry makes no item: no earlier entry makes the item that it names, or its caller has
    /// no next call there.
    #[error("entry {0} makes no item")]
    Unlisted(u64),
    /// This item has all answered calls.
    #[error("item {0} has all answered calls")]
    Whole(u64),
    /// `Leads(e, i)`: the next call of caller `i` at item `e` leads to no item of the list.
    #[error("the next call of caller {1} at item {0} leads out of the list")]
    Leads(u64, u32),
}
