ghost use Rattle.std.specs.Prelude.{◌≡◌, ◌↔◌, ◌⊎◌, ◌++◌, Some, slice_get, IfOk, IsTrue, OnOk};
ghost use Rattle.level_refutations.specs.declared.node.NodeKey.{NodeKey};
ghost use Rattle.level_refutations.specs.Closed.{nodes_at, nodes_of};
ghost use Rattle.level_refutations.specs.Stored.{AreKnown, IsKey};

use crate::entry::LevelEntry;
use crate::node::{Node, NodeKey};
use book_base::{MAX_CALLERS, NoMemory};
use indexmap::IndexSet;
use std::alloc::Global;

/// The nodes that entries list, in their order.
pub fn nodes_of(alloc: Global, entries: &[LevelEntry]) -> Result<Vec<Node>, NoMemory>
    ensures { IfOk result (λ nodes. nodes.items ≡ nodes_of entries.now) }
{
    let mut nodes = Vec::new(alloc);
    for k in 0..entries.len() {
        if let LevelEntry::At(level, cuts) = &entries[k] {
            add_all(&mut nodes, *level, cuts)?;
        }
    }
    Ok(nodes)
}

// Adds the nodes of a level with cuts.
fn add_all(nodes: &mut Vec<Node>, level: u64, cuts: &[u64]) -> Result<(), NoMemory>
    ensures { OnOk result (nodes.new.items ≡ nodes.old.items ++ nodes_at level cuts.now) }
{
    for k in 0..cuts.len() {
        nodes.push(Node {
            level,
            cut: cuts[k],
        })?;
    }
    Ok(())
}

/// The nodes by their counts, where `cuts` has the counts of each cut.
pub fn known_of(
    alloc: Global,
    nodes: &[Node],
    cuts: &[[u16; MAX_CALLERS]],
) -> Result<IndexSet<NodeKey>, NoMemory>
    ensures { IfOk result (λ known. AreKnown cuts.now nodes.now known.keys) }
{
    let mut known = IndexSet::new(alloc);
    for k in 0..nodes.len() {
        insert(&mut known, nodes[k], cuts)?;
    }
    Ok(known)
}

// Puts in a node by its counts, where `cuts` has the counts of each cut.
fn insert(
    known: &mut IndexSet<NodeKey>,
    node: Node,
    cuts: &[[u16; MAX_CALLERS]],
) -> Result<(), NoMemory>
    ensures { OnOk result ((key : NodeKey) → IsKey known.new.keys key ↔ (IsKey known.old.keys key
        ⊎ ((key.level ≡ node.level) × (slice_get cuts.now node.cut ≡ Some key.counts)))) }
{
    if node.cut >= cuts.len() as u64 {
        return Ok(());
    }
    let _is_new = known.insert(NodeKey {
        level: node.level,
        counts: cuts[node.cut as usize],
    })?;
    Ok(())
}

/// Whether a key is one of some nodes.
pub fn is_known(known: &IndexSet<NodeKey>, key: &NodeKey) -> bool
    ensures { IsTrue result ↔ IsKey known.now.keys key.now }
{
    known.contains(key)
}
