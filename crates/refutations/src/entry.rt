/// An entry of a closed list: it makes the next item, from the item with the number `item`, by the
/// next call of the caller `caller`. Any numbers make an entry; whether there is such an item and
/// such a call is a test.
#[derive(Clone, Copy, Debug, PartialEq, Eq)]
pub struct Entry {
    pub item: u64,
    pub caller: u64,
}
