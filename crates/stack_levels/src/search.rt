ghost use Rattle.std.specs.Prelude.{◌≡◌, ◌<◌, length, IsTrue};
ghost use Rattle.book_base.specs.Book.{IsCall};
ghost use Rattle.book_base.specs.Pruning.{HasOneOpen};
ghost use Rattle.search_hints.specs.Marks.{IsMarkedWithin, MarksAllNext};
ghost use Rattle.list_pruning.specs.Sights.{ListsValues};

use crate::stack_book::{NextCallers, StackBook};
use crate::table::{Beginning, FirstReached, Level, LevelEnd, LevelTable, NodeKey, Origin, raised};
use book_base::{Call, MAX_CALLERS, MAX_CALLS, NoMemory};
use indexmap::IndexSet;
use legal_orders::{Reader, Role};
use list_pruning::Top;
use std::alloc::Global;
use std::cmp::Reverse;

/// The greatest number of nodes that a search looks at.
pub const NODES: u64 = 2_000_000;

/// How often a search may be led to a node, new or not, before it is given up.
pub const LINKS: u64 = 30_000_000;

/// The result of a search.
#[derive(Drop)]
pub enum LevelsFound {
    /// The table, and the number of a node whose cut holds all answered calls.
    Whole(LevelTable, usize),
    /// The table, where all of its nodes were looked at and no node's cut holds all answered calls.
    DeadEnds(LevelTable),
    /// The search was given up at one of its bounds.
    Unsaid,
}

/// A search for a node of a stack's book whose cut holds all answered calls.
pub struct LevelSearch<'a, R> {
    pub alloc: Global,
    pub on: &'a StackBook<'a, R>,
}

impl<R> Drop for LevelSearch<'_, R> {
    fn drop(self) {
        let LevelSearch { alloc: _, on: _ } = self;
    }
}

/// How far a search has come: the table of what was found; the numbers of the nodes that are still
/// to be looked at; how often a call led to a node; and the cuts and tops that were looked at, with
/// the calls that are to be tried at each.
#[derive(Drop)]
struct SearchState {
    table: LevelTable,
    open: Vec<usize>,
    links: u64,
    looked: IndexSet<Beginning>,
    steps: Vec<Vec<LevelStep>>,
}

/// A node: its number, its key, and what is known of the lists that end with its level's item.
#[derive(Clone, Copy)]
struct Here {
    place: usize,
    node: NodeKey,
    top: Top,
}

/// A call that is to be tried, and its turn: the nodes to which the call of the least turn leads
/// are looked at first.
#[derive(Clone, Copy, Drop)]
pub struct Turn {
    pub turn: u64,
    pub call: Call,
}

/// A call that is to be tried at some cut, and the number of the cut after it.
#[derive(Clone, Copy)]
pub struct LevelStep {
    pub call: Call,
    pub cut: usize,
}

impl<R: Reader> LevelSearch<'_, R> {
    /// Looks for a node whose cut holds all answered calls.
    pub fn run(&self) -> Result<LevelsFound, NoMemory>
        requires sight { ListsValues (R.reading self.now.on.now.reader.now) self.now.on.now.book.now
            self.now.on.now.sight.now }
        requires open { HasOneOpen self.now.on.now.book.now }
    {
        let mut progress = SearchState {
            table: LevelTable::start(self.alloc)?,
            open: vec![in self.alloc; 0]?,
            links: 0,
            looked: IndexSet::new(self.alloc),
            steps: Vec::new(self.alloc),
        };
        for _ in 0..NODES {
            let Some(place) = progress.open.pop() else {
                return Ok(LevelsFound::DeadEnds(progress.table));
            };
            if self.look_at(&mut progress, place)? {
                return Ok(LevelsFound::Whole(progress.table, place));
            }
            if progress.links > LINKS {
                return Ok(LevelsFound::Unsaid);
            }
        }
        Ok(LevelsFound::Unsaid)
    }

    // Follows each call that is to be tried at a node. Answers `true` where there is no call to be
    // tried, since the node's cut holds all answered calls.
    fn look_at(&self, progress: &mut SearchState, place: usize) -> Result<bool, NoMemory>
        requires sight { ListsValues (R.reading self.now.on.now.reader.now) self.now.on.now.book.now
            self.now.on.now.sight.now }
        requires open { HasOneOpen self.now.on.now.book.now }
    {
        let Some(node) = progress.table.nodes.get_index(place).copied() else {
            return Ok(false);
        };
        let Some(level) = progress.table.levels.get(node.level) else {
            return Ok(false);
        };
        let top = level.top;
        let Some(looked) = self.steps_at(progress, Beginning { cut: node.cut, top })? else {
            return Ok(true);
        };
        let here = Here { place, node, top };
        for k in 0..MAX_CALLERS {
            let Some(step) = step_of(progress, looked, k) else {
                break;
            };
            self.follow(progress, here, step)?;
        }
        Ok(false)
    }

    // The number of the list of calls that are to be tried at a cut and a top; each such list is
    // made once. Answers `None` where the cut holds all answered calls.
    fn steps_at(&self, progress: &mut SearchState, at: Beginning) -> Result<Option<usize>, NoMemory>
        requires sight { ListsValues (R.reading self.now.on.now.reader.now) self.now.on.now.book.now
            self.now.on.now.sight.now }
        requires open { HasOneOpen self.now.on.now.book.now }
    {
        if let Some(looked) = progress.looked.get_index_of(&at) {
            return Ok(Some(looked));
        }
        let Some(counts) = progress.table.cuts.get_index(at.cut).copied() else {
            return Ok(None);
        };
        let callers = self.on.book.callers() as usize;
        let Some(look) = self.on.look(&counts[..callers], at.top) else {
            return Ok(None);
        };
        let mut steps = Vec::new(self.alloc);
        for turn in &self.turns(&look, at.top)? {
            let call = turn.call;
            let (cut, _is_new) = progress.table.cuts.insert_full(more(&counts, call.caller))?;
            steps.push(LevelStep { call, cut })?;
        }
        progress.steps.push(steps)?;
        let (looked, _is_new) = progress.looked.insert_full(at)?;
        Ok(Some(looked))
    }

    /// The calls that are to be tried at a list with the top `top`, the one of the least turn last.
    pub fn turns(&self, look: &NextCallers, top: Top) -> Result<Vec<Turn>, NoMemory>
        // The cut has a count for each caller of the book.
        requires wide { length look.now.cut ≡ length self.now.on.now.book.now }
        // Exactly those callers are marked in `all` whose next calls may come next after the cut.
        requires all { MarksAllNext self.now.on.now.book.now look.now.cut look.now.all }
        // Each caller whose next call has to be tried is one whose next call may come next.
        requires fewer { IsMarkedWithin look.now.marks look.now.all }
    {
        let mut turns = Vec::new(self.alloc);
        for caller in 0..self.on.book.callers() {
            if look.marks.has(caller) {
                let call = Call {
                    caller,
                    number: look.cut.get(caller),
                };
                self.consider(&mut turns, top, call)?;
            }
        }
        turns.sort_by_key(|turn| Reverse(turn.turn))?;
        Ok(turns)
    }

    /// Adds `call` to `turns`, the calls that are to be tried at a list with the top `top`. It
    /// isn't added where it shows something other than the list's last word, where it is unanswered
    /// and doesn't change the list, or where one of `turns` serves for it. Where it serves for one
    /// of `turns`, it takes that one's place.
    pub fn consider(&self, turns: &mut Vec<Turn>, top: Top, call: Call) -> Result<(), NoMemory> {
        if !self.is_call(call) {
            return Ok(());
        }
        if self.on.shows_another(top.last, call) || self.on.leaves_top(top.last, call) {
            return Ok(());
        }
        for k in 0..turns.len() {
            let other = turns[k].call;
            if self.is_call(other) {
                if self.on.serves(top.last, other, call) {
                    return Ok(());
                }
                if self.on.serves(top.last, call, other) {
                    turns[k] = self.turn_of(call);
                    return Ok(());
                }
            }
        }
        turns.push(self.turn_of(call))?;
        Ok(())
    }

    /// Whether a call is one of the book's.
    pub fn is_call(&self, call: Call) -> bool
        ensures caller { IsTrue result → call.caller < length self.now.on.now.book.now }
        ensures call { IsTrue result → IsCall self.now.on.now.book.now call }
    {
        call.caller < self.on.book.callers() && call.number < self.on.book.calls(call.caller)
    }

    // A call and its turn: a call whose view holds fewer calls comes sooner; of calls whose views
    // hold equally many calls, a take comes sooner; and unanswered calls come last.
    fn turn_of(&self, call: Call) -> Turn {
        if !self.is_call(call) || call.number >= self.on.book.answers(call.caller) {
            return Turn {
                turn: u64::MAX,
                call,
            };
        }
        let mut turn: u64 = match self.on.reader.role(self.on.book.op(call)) {
            Role::Take => 0,
            Role::Put(_) | Role::Other => 1,
        };
        for count in self.on.book.record(call).view.counts() {
            turn = turn.saturating_add(count.saturating_mul(2));
        }
        Turn { turn, call }
    }

    // Follows a call from a node to all nodes that it leads to.
    fn follow(
        &self,
        progress: &mut SearchState,
        here: Here,
        step: LevelStep,
    ) -> Result<(), NoMemory>
        requires sight { ListsValues (R.reading self.now.on.now.reader.now) self.now.on.now.book.now
            self.now.on.now.sight.now }
    {
        let LevelStep { call, cut } = step;
        if !self.is_call(call) {
            return Ok(());
        }
        match self.on.reader.role(self.on.book.op(call)) {
            Role::Put(value) => self.begin(progress, here, value, step),
            Role::Take if here.top.last.is_some() => {
                let take = LevelEnd {
                    node: here.place,
                    take: call,
                    cut,
                };
                end(progress, here.node.level, take)
            }
            Role::Take | Role::Other => {
                let node = NodeKey {
                    level: here.node.level,
                    cut,
                };
                reach(progress, node, FirstReached::Stays(here.place, call))
            }
        }
    }

    // Follows a put of `value` from a node to the level that it begins. Puts of one value that lead
    // to one cut share a level, where their lists are alike in being kept or not.
    fn begin(
        &self,
        progress: &mut SearchState,
        here: Here,
        value: u64,
        step: LevelStep,
    ) -> Result<(), NoMemory>
        requires sight { ListsValues (R.reading self.now.on.now.reader.now) self.now.on.now.book.now
            self.now.on.now.sight.now }
    {
        let top = Top {
            last: Some(value),
            kept: here.top.kept && !self.on.is_taken(value),
        };
        let cut = step.cut;
        let (level, is_new) = progress
            .table
            .beginnings
            .insert_full(Beginning { cut, top })?;
        if is_new {
            progress.table.levels.push(Level::new(self.alloc, top))?;
        }
        let origin = Origin {
            node: here.place,
            put: step.call,
        };
        lay_on(progress, level, here.node.level, origin)?;
        reach(progress, NodeKey { level, cut }, FirstReached::Begins)
    }
}

// The step with the number `k` in the list of steps with the number `looked`.
fn step_of(progress: &SearchState, looked: usize, k: usize) -> Option<LevelStep> {
    progress.steps.get(looked)?.get(k).copied()
}

/// The counts with one more call of a caller, or as they are where the caller can have no more
/// calls.
pub fn more(counts: &[u16; MAX_CALLERS], caller: u32) -> [u16; MAX_CALLERS] {
    let place = caller as usize;
    if place < MAX_CALLERS && u64::from(counts[place]) < MAX_CALLS {
        raised(counts, caller)
    } else {
        *counts
    }
}

// Adds the level `below` to the parents of `level`, with a put that leads from the lower one to the
// upper one. Each known take of the upper level's item leads to the lower level too.
fn lay_on(
    progress: &mut SearchState,
    level: usize,
    below: usize,
    origin: Origin,
) -> Result<(), NoMemory> {
    let Some(upper) = progress.table.levels.get_mut(level) else {
        return Ok(());
    };
    if upper.parents.contains(&below) {
        return Ok(());
    }
    let put = upper.origins.len();
    upper.parents.push(below)?;
    upper.origins.push(origin)?;
    for k in 0..upper.endings.len() {
        if let Some(cut) = ended_at(progress, level, k) {
            let node = NodeKey { level: below, cut };
            reach(progress, node, FirstReached::Returns(level, put, k))?;
        }
    }
    Ok(())
}

// The number of the cut after the take with the number `k` among a level's endings.
fn ended_at(progress: &SearchState, level: usize, k: usize) -> Option<usize> {
    Some(progress.table.levels.get(level)?.endings.get(k)?.cut)
}

// Adds a take of a level's item to the level's endings, where none of them leads to the same cut:
// the take leads to each parent of the level.
fn end(progress: &mut SearchState, level: usize, ending: LevelEnd) -> Result<(), NoMemory> {
    let node = NodeKey {
        level,
        cut: ending.cut,
    };
    if !progress.table.ended.insert(node)? {
        return Ok(());
    }
    let Some(upper) = progress.table.levels.get_mut(level) else {
        return Ok(());
    };
    let take = upper.endings.len();
    upper.endings.push(ending)?;
    for k in 0..upper.parents.len() {
        if let Some(below) = parent_of(progress, level, k) {
            let node = NodeKey {
                level: below,
                cut: ending.cut,
            };
            reach(progress, node, FirstReached::Returns(level, k, take))?;
        }
    }
    Ok(())
}

// The parent with the number `k` of a level.
fn parent_of(progress: &SearchState, level: usize, k: usize) -> Option<usize> {
    progress.table.levels.get(level)?.parents.get(k).copied()
}

// Counts one more way to a node, and notes a new node as one that is still to be looked at.
fn reach(progress: &mut SearchState, node: NodeKey, by: FirstReached) -> Result<(), NoMemory> {
    progress.links = progress.links.saturating_add(1);
    let (place, is_new) = progress.table.nodes.insert_full(node)?;
    if is_new {
        progress.table.reached.push(by)?;
        progress.open.push(place)?;
    }
    Ok(())
}
