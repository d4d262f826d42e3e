ghost use Rattle.std.specs.Prelude.{◌≡◌, ◌↔◌, ℕ, ◌<◌, length, take, Some, slice_get, IfSome, IfNone, IfErr, OnOk, IsTrue};
ghost use Rattle.book_base.specs.Next.{next_call, MayComeNext};
ghost use Rattle.book_base.specs.Pruning.{IsLeast};
ghost use Rattle.search_hints.specs.Marks.{MarksAllNext};
ghost use Rattle.level_refutations.specs.Closed.{Level, IsOneOf, IsNode, AreNodesAt, PopLeads, OperationLeads, CallLeads, IsClosedAt, AreMade, levels_of, cuts_of, nodes_of, no_calls, table_of};
ghost use Rattle.level_refutations.specs.declared.node.Node.{Node};
ghost use Rattle.level_refutations.specs.Fault.{IsFirstFault};
ghost use Rattle.level_refutations.specs.Stored.{IsStored, AreLevels, AreKnown, IsOpen, AreWide, wide_table, Allows};

use crate::cuts::raised;
use crate::entry::LevelEntry;
use crate::fault::LevelFault;
use crate::levels::Levels;
use crate::node::{Node, NodeKey};
use crate::nodes::is_known;
use book_base::{BAD, Book, Call, MAX_CALLERS};
use indexmap::IndexSet;
use search_hints::{MarkedCallers, all_next, cut_of, first_view, least_open};
use seq_objects::{DONE, NONE, StackOperation, wrapping_value_reply};

/// The table that entries make: its levels, the counts of its cuts, its nodes, and these by their
/// counts.
#[derive(Drop)]
pub struct StoredTable {
    pub levels: Levels,
    pub cuts: Vec<[u16; MAX_CALLERS]>,
    pub nodes: Vec<Node>,
    pub known: IndexSet<NodeKey>,
}

impl StoredTable {
    /// Whether the level of the empty stack with the cut of no call is a node.
    pub fn begins(&self, book: &Book, entries: &[LevelEntry]) -> bool
        requires { IsStored book.now entries.now self.now }
        ensures { IsTrue result ↔ IsNode (table_of book.now entries.now) 0 (no_calls book.now) }
    {
        let _callers = book.callers();
        self.has(0, &[0; MAX_CALLERS])
    }

    /// Why the table isn't closed at its nodes.
    pub fn first_open(&self, book: &Book, entries: &[LevelEntry]) -> Result<(), LevelFault>
        requires stored { IsStored book.now entries.now self.now }
        requires made { AreMade book.now entries.now (length entries.now) }
        requires begins { IsNode (table_of book.now entries.now) 0 (no_calls book.now) }
        ensures closed { OnOk result ((k : ℕ) (node : Node)
            → slice_get (nodes_of entries.now) k ≡ Some node
            → IsClosedAt book.now (table_of book.now entries.now) node) }
        ensures fault { IfErr result (IsFirstFault book.now entries.now) }
    {
        for k in 0..self.nodes.len() {
            if let Some(fault) = self.first_open_at(book, entries, self.nodes[k]) {
                return Err(fault);
            }
        }
        Ok(())
    }

    // Why the table isn't closed at a node.
    fn first_open_at(&self, book: &Book, entries: &[LevelEntry], node: Node) -> Option<LevelFault>
        requires stored { IsStored book.now entries.now self.now }
        requires level { node.level < length (levels_of entries.now) }
        requires cut { node.cut < length (cuts_of book.now entries.now) }
        ensures fault { IfSome result (IsOpen book.now entries.now node) }
        ensures closed { IfNone result
            (IsClosedAt book.now (table_of book.now entries.now) node) }
    {
        let callers = book.callers() as usize;
        let counts = self.cuts[node.cut as usize];
        let Some(first) = least_open(book, &counts[..callers]) else {
            return Some(LevelFault::Whole(node.level, node.cut));
        };
        let marks = next_callers(book, &counts[..callers], first);
        for caller in 0..book.callers() {
            if marks.has(caller) && !self.call_leads(book, entries, node.level, &counts, caller) {
                return Some(LevelFault::Leads(node.level, node.cut, caller));
            }
        }
        None
    }

    // Whether the next call of a caller, which may come next at a level and a cut, leads to nodes
    // alone.
    fn call_leads(
        &self,
        book: &Book,
        entries: &[LevelEntry],
        level: u64,
        counts: &[u16; MAX_CALLERS],
        caller: u32,
    ) -> bool
        requires stored { IsStored book.now entries.now self.now }
        requires level { level < length (levels_of entries.now) }
        requires wide { AreWide (length book.now) counts.now }
        requires may { MayComeNext book.now (take (length book.now) counts.now)
            (next_call (take (length book.now) counts.now) caller) }
        ensures { IsTrue result ↔ ((named : Level)
            → slice_get (levels_of entries.now) level ≡ Some named
            → CallLeads book.now (table_of book.now entries.now) level named
            (take (length book.now) counts.now) caller) }
    {
        let _callers = book.callers();
        let number = u64::from(counts[caller as usize]);
        let call = Call { caller, number };
        let operation = StackOperation::from_word(book.op(call));
        let reply = if number < book.answers(caller) {
            Some(book.record(call).reply)
        } else {
            None
        };
        self.operation_leads(entries, level, operation, reply, &raised(counts, caller))
    }

    // Whether an operation at a level leads to nodes alone, where `reply` is the recorded reply,
    // and `after` the cut after the call.
    fn operation_leads(
        &self,
        entries: &[LevelEntry],
        level: u64,
        operation: Option<StackOperation>,
        reply: Option<u64>,
        after: &[u16; MAX_CALLERS],
    ) -> bool
        requires levels { AreLevels entries.now self.now.levels (levels_of entries.now) }
        requires known { AreKnown self.now.cuts.items self.now.nodes.items self.now.known.keys }
        requires level { level < length (levels_of entries.now) }
        ensures { IsTrue result ↔ ((named : Level)
            → slice_get (levels_of entries.now) level ≡ Some named
            → OperationLeads (wide_table entries.now self.now) level named operation (Allows reply)
            after.now) }
    {
        match operation {
            Some(known) => self.known_leads(entries, level, known, reply, after),
            None => !allows(reply, BAD) || self.has(level, after),
        }
    }

    // Whether an operation that a stack knows leads to nodes alone.
    fn known_leads(
        &self,
        entries: &[LevelEntry],
        level: u64,
        operation: StackOperation,
        reply: Option<u64>,
        after: &[u16; MAX_CALLERS],
    ) -> bool
        requires levels { AreLevels entries.now self.now.levels (levels_of entries.now) }
        requires known { AreKnown self.now.cuts.items self.now.nodes.items self.now.known.keys }
        requires level { level < length (levels_of entries.now) }
        ensures { IsTrue result ↔ ((named : Level)
            → slice_get (levels_of entries.now) level ≡ Some named
            → OperationLeads (wide_table entries.now self.now) level named (Some operation)
            (Allows reply) after.now) }
    {
        match operation {
            StackOperation::Push(value) => {
                !allows(reply, DONE) || self.has_one(self.levels.above.get(value, level), after)
            }
            StackOperation::Pop => self.pop_leads(entries, level, reply, after),
        }
    }

    // Whether a pop at a level leads to nodes alone.
    fn pop_leads(
        &self,
        entries: &[LevelEntry],
        level: u64,
        reply: Option<u64>,
        after: &[u16; MAX_CALLERS],
    ) -> bool
        requires levels { AreLevels entries.now self.now.levels (levels_of entries.now) }
        requires known { AreKnown self.now.cuts.items self.now.nodes.items self.now.known.keys }
        requires level { level < length (levels_of entries.now) }
        ensures { IsTrue result ↔ ((named : Level)
            → slice_get (levels_of entries.now) level ≡ Some named
            → PopLeads (wide_table entries.now self.now) level named.top named.below (Allows reply)
            after.now) }
    {
        match self.levels.get(entries, level) {
            Some((value, below)) => {
                !allows(reply, wrapping_value_reply(u64::from(value))) || self.has_all(below, after)
            }
            None => !allows(reply, NONE) || self.has(level, after),
        }
    }

    // Whether a level with a cut is a node.
    fn has(&self, level: u64, counts: &[u16; MAX_CALLERS]) -> bool
        requires { AreKnown self.now.cuts.items self.now.nodes.items self.now.known.keys }
        ensures { IsTrue result
            ↔ AreNodesAt self.now.cuts.items self.now.nodes.items level counts.now }
    {
        is_known(
            &self.known,
            &NodeKey {
                level,
                counts: *counts,
            },
        )
    }

    // Whether some of the levels with a cut is a node.
    fn has_one(&self, levels: &[u64], counts: &[u16; MAX_CALLERS]) -> bool
        requires { AreKnown self.now.cuts.items self.now.nodes.items self.now.known.keys }
        ensures { IsTrue result ↔ ((m : ℕ) × IsOneOf levels.now m
            × AreNodesAt self.now.cuts.items self.now.nodes.items m counts.now) }
    {
        for k in 0..levels.len() {
            if self.has(levels[k], counts) {
                return true;
            }
        }
        false
    }

    // Whether each of the levels with a cut is a node.
    fn has_all(&self, levels: &[u64], counts: &[u16; MAX_CALLERS]) -> bool
        requires { AreKnown self.now.cuts.items self.now.nodes.items self.now.known.keys }
        ensures { IsTrue result ↔ ((p : ℕ) → IsOneOf levels.now p
            → AreNodesAt self.now.cuts.items self.now.nodes.items p counts.now) }
    {
        for k in 0..levels.len() {
            if !self.has(levels[k], counts) {
                return false;
            }
        }
        true
    }
}

// Whether `said` doesn't contradict a recorded reply.
fn allows(reply: Option<u64>, said: u64) -> bool
    ensures { IsTrue result ↔ Allows reply said }
{
    match reply {
        Some(word) => word == said,
        None => true,
    }
}

/// The callers whose next calls may come next after a cut that lacks an answered call.
pub fn next_callers(book: &Book, counts: &[u16], first: u32) -> MarkedCallers
    requires wide { length counts.now ≡ length book.now }
    requires first { IsLeast book.now counts.now (length book.now) first }
    ensures { MarksAllNext book.now counts.now result }
{
    let _callers = book.callers();
    let cut = cut_of(counts);
    all_next(book, &cut, first_view(book, counts, first), first)
}
