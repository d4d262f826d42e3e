/// An entry of a table of levels. Cuts and levels are numbered from 1 on, in the order of their
/// entries; cut 0 is no call, and level 0 the empty stack. Any numbers make an entry; whether there
/// is what it names is a test.
#[derive(Debug, PartialEq, Eq, Drop)]
pub enum LevelEntry {
    /// `Cut(p, i)`: the next cut is cut `p` with the next call of caller `i`.
    Cut(u64, u64),
    /// `Level(v, below)`: the next level is an item `v`, which may lie right above the levels with
    /// the numbers `below`, also such as later entries make.
    Level(u32, Vec<u64>),
    /// `At(l, cuts)`: level `l` is on top after each of the cuts with the numbers `cuts`.
    At(u64, Vec<u64>),
}
