use book_base::Call;
use std::collections::BTreeMap;

/// The calls of one label, such as a value: in `puts` those that put the value in, and in `shows`
/// the answered calls whose replies show it.
#[derive(Debug, Drop)]
pub struct Labelled {
    pub label: u128,
    pub puts: Vec<Call>,
    pub shows: Vec<Call>,
}

/// What an object prepares of a book before a search, for [`SearchHints::narrow`] to look at: in
/// `labelled` the calls of each label, and in `places` the place of each label there. An object may
/// leave both empty.
///
/// A sight is plain data. What its labels mean, and whether it has all calls of each label, is said
/// by the object that prepares it.
///
/// [`SearchHints::narrow`]: crate::SearchHints::narrow
#[derive(Debug, Drop)]
pub struct Sight {
    pub labelled: Vec<Labelled>,
    pub places: BTreeMap<u128, u64>,
}
