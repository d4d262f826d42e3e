use thiserror::Error;

/// Why entries make no closed table. Entries are counted from 1, and nodes are named by the numbers
/// of their level and their cut.
///
/// Entries are tried first, then whether there is the first node, and then all nodes in their
/// order, each with all its tests in the order of the variants.
#[derive(Clone, Copy, Debug, PartialEq, Eq, Error)]
pub enum LevelFault {
    /// This entry names a cut, a level or a call that isn't there; entry 0: level 0 with cut 0
    /// isn't a node.
    #[error("entry {0} names what isn't there")]
    Unlisted(u64),
    /// `Whole(l, c)`: the cut `c` of a node with the level `l` has all answered calls.
    #[error("cut {1} of level {0} has all answered calls")]
    Whole(u64, u64),
    /// `Leads(l, c, i)`: the next call of caller `i` at the node of level `l` and cut `c` leads out
    /// of the table.
    #[error("the next call of caller {2} at level {0} and cut {1} leads out of the table")]
    Leads(u64, u64, u32),
}
