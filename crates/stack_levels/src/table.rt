ghost use Rattle.std.specs.Prelude.{◌≡◌, ℕ, ◌+◌, ◌<◌, IsTrue, slice_index, slice_set};
ghost use Rattle.book_base.specs.declared.TheConstants.{MAX_CALLERS, MAX_CALLS};

use book_base::{Call, MAX_CALLERS, NoMemory};
use indexmap::IndexSet;
use list_pruning::Top;
use std::alloc::Global;

/// The number of a level, and the counts of a cut after which the object's list may be one that the
/// level stands for.
#[derive(Clone, Copy)]
pub struct Node {
    pub level: usize,
    pub counts: [u16; MAX_CALLERS],
}

/// A node as a table lists it: the number of its level, and the number of its cut among the table's
/// cuts.
#[derive(Clone, Copy, Debug, PartialEq, Eq, Hash)]
pub struct NodeKey {
    pub level: usize,
    pub cut: usize,
}

/// The number of a cut, and what is known of the lists after it: their last word, and whether they
/// are kept. Each level begins with one such pair: the puts that begin the level all have the same
/// value, lead to the same cut, and leave lists that are alike in being kept or not.
#[derive(Clone, Copy, Debug, PartialEq, Eq, Hash)]
pub struct Beginning {
    pub cut: usize,
    pub top: Top,
}

/// A put that begins a level, and the number of the node at which the put is made.
#[derive(Clone, Copy)]
pub struct Origin {
    pub node: usize,
    pub put: Call,
}

/// A take that takes out a level's item: the number of the node at which the take is made, the
/// call, and the number of the cut after it.
#[derive(Clone, Copy)]
pub struct LevelEnd {
    pub node: usize,
    pub take: Call,
    pub cut: usize,
}

/// A level: what is known of the lists that end with its item; the numbers of the levels that may
/// lie right below it, its parents; for each parent a put that leads from it, in `origins`; and the
/// takes that take its item out, in `endings`. The bottom, the level of the empty list, has no last
/// word and no parents.
#[derive(Drop)]
pub struct Level {
    pub top: Top,
    pub parents: Vec<usize>,
    pub origins: Vec<Origin>,
    pub endings: Vec<LevelEnd>,
}

/// How a node was reached first.
#[derive(Clone, Copy)]
pub enum FirstReached {
    /// By a put that begins the node's level; or the node is the bottom after no call.
    Begins,
    /// By a call that doesn't change the list, made at another node of the level. The number is
    /// that of this other node.
    Stays(usize, Call),
    /// By a put at a node of the level, and a later take that takes out the item of this put. The
    /// numbers are that of the level that the put begins, that of the put among this level's
    /// origins, and that of the take among its endings.
    Returns(usize, usize, usize),
}

/// What a search has found: in `levels` its levels, of which the first is the bottom; in `cuts` the
/// counts of its cuts; in `beginnings`, at the index of each level, this level's beginning; in
/// `nodes` its nodes; in `reached`, at the index of each node, how this node was reached first; and
/// in `ended` the pairs of a level and the cut after a take that takes the level's item out.
#[derive(Drop)]
pub struct LevelTable {
    pub levels: Vec<Level>,
    pub cuts: IndexSet<[u16; MAX_CALLERS]>,
    pub beginnings: IndexSet<Beginning>,
    pub nodes: IndexSet<NodeKey>,
    pub reached: Vec<FirstReached>,
    pub ended: IndexSet<NodeKey>,
}

impl NodeKey {
    /// Whether both keys have the same level and the same cut.
    pub fn is_same(&self, other: &NodeKey) -> bool
        ensures { IsTrue result → self.now ≡ other.now }
    {
        self.level == other.level && self.cut == other.cut
    }
}

impl Level {
    /// A level with the top `top`, without parents, origins or endings.
    pub fn new(alloc: Global, top: Top) -> Level {
        Level {
            top,
            parents: Vec::new(alloc),
            origins: Vec::new(alloc),
            endings: Vec::new(alloc),
        }
    }
}

impl LevelTable {
    /// The table whose only node is the bottom after no call.
    pub fn start(alloc: Global) -> Result<LevelTable, NoMemory> {
        let top = Top {
            last: None,
            kept: true,
        };
        let mut table = LevelTable {
            levels: Vec::new(alloc),
            cuts: IndexSet::new(alloc),
            beginnings: IndexSet::new(alloc),
            nodes: IndexSet::new(alloc),
            reached: Vec::new(alloc),
            ended: IndexSet::new(alloc),
        };
        table.levels.push(Level::new(alloc, top))?;
        let (cut, _is_new) = table.cuts.insert_full([0; MAX_CALLERS])?;
        let _is_new = table.beginnings.insert(Beginning { cut, top })?;
        let _is_new = table.nodes.insert(NodeKey { level: 0, cut })?;
        table.reached.push(FirstReached::Begins)?;
        Ok(table)
    }
}

/// `counts` with one more call of `caller`.
pub fn raised(counts: &[u16; MAX_CALLERS], caller: u32) -> [u16; MAX_CALLERS]
    // `counts` has a count for `caller`.
    requires caller { caller < MAX_CALLERS }
    // The count of `caller` is less than the number of calls that a caller may have.
    requires few { slice_index counts.now caller < MAX_CALLS }
    ensures { result ≡ slice_set counts.now caller (slice_index counts.now caller + 1) }
{
    let mut more = *counts;
    more[caller as usize] += 1;
    more
}
