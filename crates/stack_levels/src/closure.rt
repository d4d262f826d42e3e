ghost use Rattle.std.specs.Prelude.{◌≡◌, ℕ, ◌<◌, false, List, length, map, slice_get, slice_index, take, Some, IfSome, IsTrue};
ghost use Rattle.book_base.specs.declared.TheConstants.{MAX_CALLERS, MAX_CALLS};
ghost use Rattle.book_base.specs.declared.call.Call.{Call};
ghost use Rattle.book_base.specs.Book.{IsCall, operation_of};
ghost use Rattle.book_base.specs.Next.{next_call, MayComeNext};
ghost use Rattle.book_base.specs.Pruning.{HasOneOpen};
ghost use Rattle.search_hints.specs.Marks.{IsMarked, IsMarkedWithin, MarksAllNext};
ghost use Rattle.legal_orders.specs.Calls.{IsNeverTaken};
ghost use Rattle.stack_levels.specs.declared.table.Node.{Node};
ghost use Rattle.stack_levels.specs.declared.table.NodeKey.{NodeKey};
ghost use Rattle.stack_levels.specs.Levels.{CallLeads, IsClosedAt, IsFollowed, IsKeptLayer, IsOneLevel, IsServed, TakeLeads};
ghost use Rattle.stack_levels.specs.declared.table.Level.{Level};
ghost use Rattle.stack_levels.specs.LevelLaws.{StackHasNoOrder};
ghost use Rattle.stack_levels.specs.Tables.{BeginsAtBottom, IsSaidKept, LiesOn, cut_at, layer_of, layers_of, nodes_of};
ghost use Rattle.list_pruning.specs.Sights.{ListsValues};

use crate::stack_book::{NextCallers, StackBook};
use crate::table::{Beginning, Level, LevelTable, Node, NodeKey, raised};
use book_base::{Call, MAX_CALLERS};
use legal_orders::{Reader, Role};
use list_pruning::Top;
use search_hints::has_one_open;

/// A table of levels that is to be checked once more. Where each call that has to be tried at a
/// node of the table leads only to nodes of the table, no places continue an order from any of its
/// nodes.
pub struct Closure<'a, R> {
    pub on: &'a StackBook<'a, R>,
    pub table: &'a LevelTable,
}

impl<R> Drop for Closure<'_, R> {
    fn drop(self) {
        let Closure { on: _, table: _ } = self;
    }
}

impl<R: Reader> Closure<'_, R> {
    /// Whether the table shows that a stack's book has no legal order: the book has one open, the
    /// bottom after no call is one of the table's nodes, each level with the flag `kept` is kept,
    /// and each call that has to be tried at a node leads only to nodes of the table. No clause
    /// says that this is found wherever the book has no legal order.
    pub fn refute(&self) -> bool
        // The sight lists each call of the book that puts in a value, and each answered one that
        // takes it out.
        requires sight { ListsValues (R.reading self.now.on.now.reader.now) self.now.on.now.book.now
            self.now.on.now.sight.now }
        // `true` is answered only where no object that gives its last value first, and begins with
        // nothing, has a legal order of the book.
        ensures { IsTrue result
            → StackHasNoOrder (R.reading self.now.on.now.reader.now) self.now.on.now.book.now }
    {
        let _callers = self.on.book.callers();
        if !has_one_open(self.on.book) {
            return false;
        }
        if !self.begins() {
            return false;
        }
        if !self.levels_are_kept() {
            return false;
        }
        self.are_closed()
    }

    // Whether the table's first level is the bottom, and the bottom after no call is one of its
    // nodes.
    fn begins(&self) -> bool
        ensures { IsTrue result
            → BeginsAtBottom self.now.on.now.book.now self.now.table.now.levels.items
            self.now.table.now.cuts.keys self.now.table.now.nodes.keys }
    {
        let _callers = self.on.book.callers();
        let Some(bottom) = self.level(0) else {
            return false;
        };
        match bottom.top.last {
            Some(_) => false,
            None => self.has(0, [0; MAX_CALLERS]),
        }
    }

    // The table's level with the number `number`, if it has one.
    fn level(&self, number: usize) -> Option<&Level>
        ensures { IfSome result
            (λ level. slice_get self.now.table.now.levels.items number ≡ Some level.now) }
    {
        self.table.levels.get(number)
    }

    // Whether the table has the node of a level and the cut with the counts `counts`.
    fn has(&self, level: usize, counts: [u16; MAX_CALLERS]) -> bool
        ensures { IsTrue result
            → nodes_of self.now.on.now.book.now self.now.table.now.cuts.keys
            self.now.table.now.nodes.keys level (take (length self.now.on.now.book.now) counts) }
    {
        match self.cut_of(counts) {
            Some(cut) => self.has_at(level, cut, counts),
            None => false,
        }
    }

    // The number of the cut with the counts `counts`, where the table has this cut.
    fn cut_of(&self, counts: [u16; MAX_CALLERS]) -> Option<usize>
        ensures { IfSome result
            (λ cut. slice_get self.now.table.now.cuts.keys cut ≡ Some counts) }
    {
        match self.table.cuts.get_full(&counts) {
            Some((cut, kept)) if *kept == counts => Some(cut),
            Some(_) | None => None,
        }
    }

    // Whether the table has the node of a level and the cut with the number `cut`, whose counts are
    // `counts`.
    fn has_at(&self, level: usize, cut: usize, counts: [u16; MAX_CALLERS]) -> bool
        requires cut { slice_get self.now.table.now.cuts.keys cut ≡ Some counts }
        ensures { IsTrue result
            → nodes_of self.now.on.now.book.now self.now.table.now.cuts.keys
            self.now.table.now.nodes.keys level (take (length self.now.on.now.book.now) counts) }
    {
        let key = NodeKey { level, cut };
        match self.table.nodes.get_full(&key) {
            Some((_, kept)) => kept.is_same(&key),
            None => false,
        }
    }

    // Whether each level of the table that has the flag `kept` is kept.
    fn levels_are_kept(&self) -> bool
        requires sight { ListsValues (R.reading self.now.on.now.reader.now) self.now.on.now.book.now
            self.now.on.now.sight.now }
        ensures { IsTrue result → (l : ℕ) (level : Level)
            → slice_get self.now.table.now.levels.items l ≡ Some level → IsTrue level.top.kept
            → IsKeptLayer (R.reading self.now.on.now.reader.now) self.now.on.now.book.now
            (layers_of self.now.table.now.levels.items) (layer_of level) }
    {
        for k in 0..self.table.levels.len() {
            if !self.level_is_kept_at(k) {
                return false;
            }
        }
        true
    }

    // Whether the table has a level with the number `number`, and this level is kept or lacks the
    // flag `kept`.
    fn level_is_kept_at(&self, number: usize) -> bool
        requires sight { ListsValues (R.reading self.now.on.now.reader.now) self.now.on.now.book.now
            self.now.on.now.sight.now }
        ensures { IsTrue result → (level : Level)
            → slice_get self.now.table.now.levels.items number ≡ Some level → IsTrue level.top.kept
            → IsKeptLayer (R.reading self.now.on.now.reader.now) self.now.on.now.book.now
            (layers_of self.now.table.now.levels.items) (layer_of level) }
    {
        match self.level(number) {
            Some(level) => self.level_is_kept(level),
            None => false,
        }
    }

    // Whether a level is kept, or lacks the flag `kept`.
    fn level_is_kept(&self, level: &Level) -> bool
        requires sight { ListsValues (R.reading self.now.on.now.reader.now) self.now.on.now.book.now
            self.now.on.now.sight.now }
        ensures { IsTrue result → IsTrue level.now.top.kept
            → IsKeptLayer (R.reading self.now.on.now.reader.now) self.now.on.now.book.now
            (layers_of self.now.table.now.levels.items) (layer_of level.now) }
    {
        if !level.top.kept {
            return true;
        }
        if !self.is_free(level.top.last) {
            return false;
        }
        self.are_said_kept(&level.parents)
    }

    // Whether no answered call takes `last`, a level's last word. A level without a last word
    // passes.
    fn is_free(&self, last: Option<u64>) -> bool
        requires sight { ListsValues (R.reading self.now.on.now.reader.now) self.now.on.now.book.now
            self.now.on.now.sight.now }
        ensures { IsTrue result → IfSome last
            (IsNeverTaken (R.reading self.now.on.now.reader.now) self.now.on.now.book.now) }
    {
        match last {
            Some(value) => !self.on.is_taken(value),
            None => true,
        }
    }

    // Whether each level with a number in `parents` exists and has the flag `kept`.
    fn are_said_kept(&self, parents: &[usize]) -> bool
        ensures { IsTrue result → (p : ℕ) → IsOneLevel parents.now p
            → IsSaidKept (layers_of self.now.table.now.levels.items) p }
    {
        for k in 0..parents.len() {
            if !self.is_said_kept(parents[k]) {
                return false;
            }
        }
        true
    }

    // Whether the level with the number `level` exists and has the flag `kept`.
    fn is_said_kept(&self, level: usize) -> bool
        ensures { IsTrue result → IsSaidKept (layers_of self.now.table.now.levels.items) level }
    {
        match self.level(level) {
            Some(under) => under.top.kept,
            None => false,
        }
    }

    // Whether each node of the table is closed: each call that has to be tried at a node leads only
    // to nodes of the table.
    fn are_closed(&self) -> bool
        requires sight { ListsValues (R.reading self.now.on.now.reader.now) self.now.on.now.book.now
            self.now.on.now.sight.now }
        requires open { HasOneOpen self.now.on.now.book.now }
        ensures { IsTrue result → (k : ℕ) (key : NodeKey)
            → slice_get self.now.table.now.nodes.keys k ≡ Some key
            → (counts : List ℕ) → slice_get self.now.table.now.cuts.keys key.cut ≡ Some counts
            → IsClosedAt (R.reading self.now.on.now.reader.now) self.now.on.now.book.now
            (layers_of self.now.table.now.levels.items)
            (nodes_of self.now.on.now.book.now self.now.table.now.cuts.keys
            self.now.table.now.nodes.keys) key.level
            (take (length self.now.on.now.book.now) counts) }
    {
        for place in 0..self.table.nodes.len() {
            if !self.is_closed_at(place) {
                return false;
            }
        }
        true
    }

    // Whether the table's node with the number `place` is closed, or the table has no such node.
    fn is_closed_at(&self, place: usize) -> bool
        requires sight { ListsValues (R.reading self.now.on.now.reader.now) self.now.on.now.book.now
            self.now.on.now.sight.now }
        requires open { HasOneOpen self.now.on.now.book.now }
        ensures { IsTrue result → (key : NodeKey)
            → slice_get self.now.table.now.nodes.keys place ≡ Some key
            → (counts : List ℕ) → slice_get self.now.table.now.cuts.keys key.cut ≡ Some counts
            → IsClosedAt (R.reading self.now.on.now.reader.now) self.now.on.now.book.now
            (layers_of self.now.table.now.levels.items)
            (nodes_of self.now.on.now.book.now self.now.table.now.cuts.keys
            self.now.table.now.nodes.keys) key.level
            (take (length self.now.on.now.book.now) counts) }
    {
        match self.table.nodes.get_index(place) {
            Some(key) => self.is_closed_key(*key),
            None => true,
        }
    }

    // Whether the node with the key `key` is closed, or the table lacks the key's cut.
    fn is_closed_key(&self, key: NodeKey) -> bool
        requires sight { ListsValues (R.reading self.now.on.now.reader.now) self.now.on.now.book.now
            self.now.on.now.sight.now }
        requires open { HasOneOpen self.now.on.now.book.now }
        ensures { IsTrue result → (counts : List ℕ)
            → slice_get self.now.table.now.cuts.keys key.cut ≡ Some counts
            → IsClosedAt (R.reading self.now.on.now.reader.now) self.now.on.now.book.now
            (layers_of self.now.table.now.levels.items)
            (nodes_of self.now.on.now.book.now self.now.table.now.cuts.keys
            self.now.table.now.nodes.keys) key.level
            (take (length self.now.on.now.book.now) counts) }
    {
        match self.table.cuts.get_index(key.cut) {
            Some(counts) => self.is_closed(&Node {
                level: key.level,
                counts: *counts,
            }),
            None => true,
        }
    }

    // Whether a node is closed: each call that has to be tried at it leads only to nodes of the
    // table.
    fn is_closed(&self, node: &Node) -> bool
        requires sight { ListsValues (R.reading self.now.on.now.reader.now) self.now.on.now.book.now
            self.now.on.now.sight.now }
        requires open { HasOneOpen self.now.on.now.book.now }
        ensures { IsTrue result
            → IsClosedAt (R.reading self.now.on.now.reader.now) self.now.on.now.book.now
            (layers_of self.now.table.now.levels.items)
            (nodes_of self.now.on.now.book.now self.now.table.now.cuts.keys
            self.now.table.now.nodes.keys) node.now.level
            (cut_at self.now.on.now.book.now node.now) }
    {
        let callers = self.on.book.callers() as usize;
        let Some(level) = self.level(node.level) else {
            return false;
        };
        let Some(look) = self.on.look(&node.counts[..callers], level.top) else {
            return false;
        };
        self.callers_are_followed(node, level, &look)
    }

    // Whether the next call of each marked caller is followed at a node, as `is_followed` says.
    fn callers_are_followed(&self, node: &Node, level: &Level, look: &NextCallers) -> bool
        requires cut { look.now.cut ≡ cut_at self.now.on.now.book.now node.now }
        requires all { MarksAllNext self.now.on.now.book.now look.now.cut look.now.all }
        requires fewer { IsMarkedWithin look.now.marks look.now.all }
        requires wide { length look.now.cut ≡ length self.now.on.now.book.now }
        ensures { IsTrue result → (i : ℕ) → IsMarked look.now.marks i
            → IsFollowed (R.reading self.now.on.now.reader.now) self.now.on.now.book.now
            (layers_of self.now.table.now.levels.items)
            (nodes_of self.now.on.now.book.now self.now.table.now.cuts.keys
            self.now.table.now.nodes.keys) node.now.level
            (layer_of level.now) look.now.cut (next_call look.now.cut i) }
    {
        for caller in 0..self.on.book.callers() {
            if !self.caller_is_followed(node, level, look, caller) {
                return false;
            }
        }
        true
    }

    // Whether the next call of `caller` is followed at a node, as `is_followed` says, or the caller
    // isn't marked.
    fn caller_is_followed(
        &self,
        node: &Node,
        level: &Level,
        look: &NextCallers,
        caller: u32,
    ) -> bool
        requires cut { look.now.cut ≡ cut_at self.now.on.now.book.now node.now }
        requires all { MarksAllNext self.now.on.now.book.now look.now.cut look.now.all }
        requires fewer { IsMarkedWithin look.now.marks look.now.all }
        requires caller { caller < length self.now.on.now.book.now }
        requires wide { length look.now.cut ≡ length self.now.on.now.book.now }
        ensures { IsTrue result → IsMarked look.now.marks caller
            → IsFollowed (R.reading self.now.on.now.reader.now) self.now.on.now.book.now
            (layers_of self.now.table.now.levels.items)
            (nodes_of self.now.on.now.book.now self.now.table.now.cuts.keys
            self.now.table.now.nodes.keys) node.now.level
            (layer_of level.now) look.now.cut (next_call look.now.cut caller) }
    {
        if !look.marks.has(caller) {
            return true;
        }
        let number = look.cut.get(caller);
        self.is_followed(node, level, look, Call { caller, number })
    }

    // Whether a caller's next call is followed at a node: it shows something other than the last
    // word of the node's level, or it is unanswered and doesn't change the list, or it leads to
    // nodes of the table, or a next call that serves for it leads to such nodes.
    fn is_followed(&self, node: &Node, level: &Level, look: &NextCallers, call: Call) -> bool
        requires cut { look.now.cut ≡ cut_at self.now.on.now.book.now node.now }
        requires all { MarksAllNext self.now.on.now.book.now look.now.cut look.now.all }
        requires wide { length look.now.cut ≡ length self.now.on.now.book.now }
        requires caller { call.caller < length self.now.on.now.book.now }
        requires call { IsCall self.now.on.now.book.now call }
        requires number { call.number ≡ slice_index look.now.cut call.caller }
        ensures { IsTrue result → IsFollowed (R.reading self.now.on.now.reader.now)
            self.now.on.now.book.now (layers_of self.now.table.now.levels.items)
            (nodes_of self.now.on.now.book.now self.now.table.now.cuts.keys
            self.now.table.now.nodes.keys) node.now.level
            (layer_of level.now) look.now.cut call }
    {
        if self.on.shows_another(level.top.last, call) {
            return true;
        }
        if self.on.leaves_top(level.top.last, call) {
            return true;
        }
        if self.leads(node, level, look, call) {
            return true;
        }
        self.is_served(node, level, look, call)
    }

    // Whether some caller's next call may come next, serves for `call`, and leads to nodes of the
    // table.
    fn is_served(&self, node: &Node, level: &Level, look: &NextCallers, call: Call) -> bool
        requires cut { look.now.cut ≡ cut_at self.now.on.now.book.now node.now }
        requires all { MarksAllNext self.now.on.now.book.now look.now.cut look.now.all }
        requires wide { length look.now.cut ≡ length self.now.on.now.book.now }
        requires caller { call.caller < length self.now.on.now.book.now }
        requires call { IsCall self.now.on.now.book.now call }
        ensures { IsTrue result → IsServed (R.reading self.now.on.now.reader.now)
            self.now.on.now.book.now (layers_of self.now.table.now.levels.items)
            (nodes_of self.now.on.now.book.now self.now.table.now.cuts.keys
            self.now.table.now.nodes.keys) node.now.level
            (layer_of level.now) look.now.cut call }
    {
        for caller in 0..self.on.book.callers() {
            if self.serves(node, level, look, caller, call) {
                return true;
            }
        }
        false
    }

    // Whether the next call of `caller` may come next, serves for `call`, and leads to nodes of the
    // table.
    fn serves(
        &self,
        node: &Node,
        level: &Level,
        look: &NextCallers,
        caller: u32,
        call: Call,
    ) -> bool
        requires cut { look.now.cut ≡ cut_at self.now.on.now.book.now node.now }
        requires all { MarksAllNext self.now.on.now.book.now look.now.cut look.now.all }
        requires wide { length look.now.cut ≡ length self.now.on.now.book.now }
        requires its_caller { caller < length self.now.on.now.book.now }
        requires caller { call.caller < length self.now.on.now.book.now }
        requires call { IsCall self.now.on.now.book.now call }
        ensures { IsTrue result → IsServed (R.reading self.now.on.now.reader.now)
            self.now.on.now.book.now (layers_of self.now.table.now.levels.items)
            (nodes_of self.now.on.now.book.now self.now.table.now.cuts.keys
            self.now.table.now.nodes.keys) node.now.level
            (layer_of level.now) look.now.cut call }
    {
        if !look.all.has(caller) {
            return false;
        }
        let number = look.cut.get(caller);
        let other = Call { caller, number };
        if !self.on.serves(level.top.last, other, call) {
            return false;
        }
        self.leads(node, level, look, other)
    }

    // Whether a call that is made at a node leads to nodes of the table with the cut after the
    // call: a put to a level of its value that has the node's level as a parent, a take to each
    // parent of the node's level, or at the bottom to the bottom, and any other call to the node's
    // level itself.
    fn leads(&self, node: &Node, level: &Level, look: &NextCallers, call: Call) -> bool
        requires cut { look.now.cut ≡ cut_at self.now.on.now.book.now node.now }
        requires caller { call.caller < length self.now.on.now.book.now }
        requires call { IsCall self.now.on.now.book.now call }
        requires number { call.number ≡ slice_index look.now.cut call.caller }
        ensures { IsTrue result → CallLeads (R.reading self.now.on.now.reader.now)
            self.now.on.now.book.now (layers_of self.now.table.now.levels.items)
            (nodes_of self.now.on.now.book.now self.now.table.now.cuts.keys
            self.now.table.now.nodes.keys) node.now.level
            (layer_of level.now) look.now.cut call }
    {
        let _callers = self.on.book.callers();
        let counts = raised(&node.counts, call.caller);
        let Some(cut) = self.cut_of(counts) else {
            return false;
        };
        match self.on.reader.role(self.on.book.op(call)) {
            Role::Put(value) => self.put_leads(node.level, level, value, cut, counts),
            Role::Take => self.take_leads(node.level, level, cut, counts),
            Role::Other => self.has_at(node.level, cut, counts),
        }
    }

    // Whether a put of `value` leads from a level to a node of the table, whose cut is the one with
    // the number `cut` and the counts `counts`.
    fn put_leads(
        &self,
        place: usize,
        level: &Level,
        value: u64,
        cut: usize,
        counts: [u16; MAX_CALLERS],
    ) -> bool
        requires cut { slice_get self.now.table.now.cuts.keys cut ≡ Some counts }
        ensures { IsTrue result → (m : ℕ)
            × LiesOn (layers_of self.now.table.now.levels.items) m place value
            × nodes_of self.now.on.now.book.now self.now.table.now.cuts.keys
            self.now.table.now.nodes.keys m
            (take (length self.now.on.now.book.now) counts) }
    {
        if level.top.kept && self.put_leads_to(place, value, cut, counts, true) {
            return true;
        }
        self.put_leads_to(place, value, cut, counts, false)
    }

    // Whether a put of `value` leads from a level to a node of the table whose cut is the one with
    // the number `cut`, and whose level has the flag `kept` as the parameter `kept` says.
    fn put_leads_to(
        &self,
        level: usize,
        value: u64,
        cut: usize,
        counts: [u16; MAX_CALLERS],
        kept: bool,
    ) -> bool
        requires cut { slice_get self.now.table.now.cuts.keys cut ≡ Some counts }
        ensures { IsTrue result → (m : ℕ)
            × LiesOn (layers_of self.now.table.now.levels.items) m level value
            × nodes_of self.now.on.now.book.now self.now.table.now.cuts.keys
            self.now.table.now.nodes.keys m
            (take (length self.now.on.now.book.now) counts) }
    {
        let top = Top {
            last: Some(value),
            kept,
        };
        match self.table.beginnings.get_index_of(&Beginning { cut, top }) {
            Some(above) => self.leads_to(above, level, value, cut, counts),
            None => false,
        }
    }

    // Whether the level `above` has `value` as its last word and `level` as a parent, and the table
    // has the node of `above` and the cut with the number `cut`.
    fn leads_to(
        &self,
        above: usize,
        level: usize,
        value: u64,
        cut: usize,
        counts: [u16; MAX_CALLERS],
    ) -> bool
        requires cut { slice_get self.now.table.now.cuts.keys cut ≡ Some counts }
        ensures { IsTrue result
            → LiesOn (layers_of self.now.table.now.levels.items) above level value
            × nodes_of self.now.on.now.book.now self.now.table.now.cuts.keys
            self.now.table.now.nodes.keys above
            (take (length self.now.on.now.book.now) counts) }
    {
        if !self.lies_on(above, level, value) {
            return false;
        }
        self.has_at(above, cut, counts)
    }

    // Whether the level `above` has `value` as its last word, and `level` as a parent.
    fn lies_on(&self, above: usize, level: usize, value: u64) -> bool
        ensures { IsTrue result
            → LiesOn (layers_of self.now.table.now.levels.items) above level value }
    {
        let Some(upper) = self.level(above) else {
            return false;
        };
        if !is_last(upper.top.last, value) {
            return false;
        }
        is_among(&upper.parents, level)
    }

    // Whether a take leads from a level to nodes of the table with the cut after the take: to each
    // parent of the level, and from the bottom to the bottom.
    fn take_leads(
        &self,
        place: usize,
        level: &Level,
        cut: usize,
        counts: [u16; MAX_CALLERS],
    ) -> bool
        requires cut { slice_get self.now.table.now.cuts.keys cut ≡ Some counts }
        ensures { IsTrue result
            → TakeLeads (nodes_of self.now.on.now.book.now self.now.table.now.cuts.keys
            self.now.table.now.nodes.keys) place
            level.now.top.last
            level.now.parents.items (take (length self.now.on.now.book.now) counts) }
    {
        match level.top.last {
            Some(_) => self.has_all_at(&level.parents, cut, counts),
            None => self.has_at(place, cut, counts),
        }
    }

    // Whether the table has for each level in `parents` the node of this level and the cut with the
    // number `cut`.
    fn has_all_at(&self, parents: &[usize], cut: usize, counts: [u16; MAX_CALLERS]) -> bool
        requires cut { slice_get self.now.table.now.cuts.keys cut ≡ Some counts }
        ensures { IsTrue result → (p : ℕ) → IsOneLevel parents.now p
            → nodes_of self.now.on.now.book.now self.now.table.now.cuts.keys
            self.now.table.now.nodes.keys p (take (length self.now.on.now.book.now) counts) }
    {
        for k in 0..parents.len() {
            if !self.has_at(parents[k], cut, counts) {
                return false;
            }
        }
        true
    }
}

// Whether `last`, a level's last word, is `value`.
fn is_last(last: Option<u64>, value: u64) -> bool
    ensures { IsTrue result → last ≡ Some value }
{
    match last {
        Some(word) => word == value,
        None => false,
    }
}

// Whether the number `level` is in the list `levels`.
fn is_among(levels: &[usize], level: usize) -> bool
    ensures { IsTrue result → IsOneLevel levels.now level }
{
    for k in 0..levels.len() {
        if levels[k] == level {
            return true;
        }
    }
    false
}
