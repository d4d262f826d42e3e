/// What is known of a stack's list: its last word, if it has one, and whether it is known that no
/// answered call of the book takes any of its words.
#[derive(Clone, Copy, Debug, PartialEq, Eq, Hash)]
pub struct Top {
    pub last: Option<u64>,
    pub kept: bool,
}
