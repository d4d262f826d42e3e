ghost use Rattle.std.specs.Prelude.{◌≡◌, length};
ghost use Rattle.book_base.specs.Pruning.{HasOneOpen};
ghost use Rattle.list_pruning.specs.Sights.{ListsValues};

use crate::lasting::{lasts, moment_before_take};
use crate::search::{LINKS, LevelSearch, LevelsFound, NODES, Turn, more};
use crate::stack_book::NextCallers;
use crate::table::{Beginning, FirstReached, Level, LevelEnd, LevelTable, NodeKey, Origin};
use book_base::{Call, Cut, MAX_CALLERS, NoMemory};
use indexmap::IndexSet;
use legal_orders::{Reader, Role};
use list_pruning::Top;
use queue_pairs::Table;
use search_hints::least_open;
use std::cmp::Reverse;

/// A search for a node whose cut holds all answered calls, as `LevelSearch` makes it, but with more
/// left out, so that it finds orders with far fewer nodes. The puts right before a forced put, none
/// of them forced, are a *run*. A rule of the search looks at all orders that go on from a node,
/// not at one cut and one list alone. Of these orders, the search tries those that take each item
/// as early as possible and have runs as short as possible.
///
/// - After a put of a run, only puts are tried until the forced put.
/// - An item that is put in right after a put of a run isn't taken within the view of that put,
///   since the put could stand after the take, which makes the run shorter.
/// - Once the item of a put is taken, a take isn't tried next if it could have been made before
///   that put, since it could stand there.
/// - A take that could have been made before a put doesn't take that put's item where an item of
///   the same value lies right below, since it could have taken the lower item before the put.
///
/// By these rules some items stay on the list for a while: the item of a put of a run past that
/// put's view, and, where a put comes next, the last item past each take of its value that may come
/// next. Meanwhile takes can only find what is put in meanwhile. So counts of puts and takes of
/// each value rule out some puts.
pub struct RunSearch<'a, R> {
    pub levels: LevelSearch<'a, R>,
    pub calls: &'a Table,
}

/// The number of a cut and what is known of the lists after it. `run` is the caller of the put that
/// leads to this cut and begins a level there, if that put is one of a run.
#[derive(Clone, Copy, Debug, PartialEq, Eq, Hash)]
struct RunBeginning {
    at: Beginning,
    run: Option<u32>,
}

/// How one level was laid on another by a put. `tried` is the forced call at the node where the put
/// was made, unless one call sufficed there: then takes that its view holds were to be tried before
/// the put. `over` is the put that began the level below, where it is one of a run and stands right
/// before.
#[derive(Clone, Copy, Debug, PartialEq, Eq)]
struct Way {
    tried: Option<Call>,
    over: Option<Call>,
}

/// What is to be tried at a cut and a top: the forced call, whether only the next call of one
/// caller has to be tried, and the calls to be tried.
#[derive(Drop)]
struct RunSteps {
    forced: Call,
    at_once: bool,
    steps: Vec<RunStep>,
}

/// A call to be tried and the number of the cut after it. Of a put, `is_taken` says whether an
/// answered call takes its value, and `in_run` whether it is one of a run.
#[derive(Clone, Copy)]
struct RunStep {
    call: Call,
    cut: usize,
    is_taken: bool,
    in_run: bool,
}

/// The counts of a cut and what is known of a list after it, with the forced call there, how many
/// calls its view counts, and whether only the next call of one caller has to be tried.
#[derive(Clone, Copy)]
struct RunLook {
    counts: [u16; MAX_CALLERS],
    top: Top,
    forced: Call,
    moment: u64,
    at_once: bool,
}

/// How far a search has come: the table of levels and nodes; of each level how it begins, and how
/// it was laid on each parent; the numbers of the nodes still to be looked at; of each node, the
/// call whose view holds the takes that needn't be tried there; how often a node was reached; and
/// the beginnings that were looked at, each with what is to be tried at it.
#[derive(Drop)]
struct RunState {
    table: LevelTable,
    begins: IndexSet<RunBeginning>,
    ways: Vec<Vec<Way>>,
    open: Vec<usize>,
    tried: Vec<Option<Call>>,
    links: u64,
    looked: IndexSet<RunBeginning>,
    steps: Vec<RunSteps>,
}

/// A node that is looked at: its number and key, what is known of the lists that its level's item
/// ends, the forced call, and whether only the next call of one caller has to be tried. `over` is
/// the put of a run that leads to the node, where nothing came after it, and `tried` the call whose
/// view holds the takes that needn't be tried there.
#[derive(Clone, Copy)]
struct RunHere {
    place: usize,
    node: NodeKey,
    top: Top,
    forced: Call,
    at_once: bool,
    over: Option<Call>,
    tried: Option<Call>,
}

impl<R> Drop for RunSearch<'_, R> {
    fn drop(self) {
        let RunSearch {
            levels: _,
            calls: _,
        } = self;
    }
}

impl<R: Reader> RunSearch<'_, R> {
    /// Looks for a node whose cut holds all answered calls.
    pub fn run(&self) -> Result<LevelsFound, NoMemory>
        // The sight lists each call of the book that puts in a value, and each answered one that
        // takes it out.
        requires sight { ListsValues (R.reading self.now.levels.on.now.reader.now)
            self.now.levels.on.now.book.now self.now.levels.on.now.sight.now }
        // Each view of the book holds at most one unanswered call of each caller.
        requires open { HasOneOpen self.now.levels.on.now.book.now }
    {
        let mut progress = self.start()?;
        for _ in 0..NODES {
            let Some(place) = progress.open.pop() else {
                return Ok(LevelsFound::DeadEnds(progress.table));
            };
            if self.look_at(&mut progress, place)? {
                return Ok(LevelsFound::Whole(progress.table, place));
            }
            if progress.links > LINKS {
                return Ok(LevelsFound::Unsaid);
            }
        }
        Ok(LevelsFound::Unsaid)
    }

    // The table whose only node is the bottom after no call, which is still to be looked at.
    fn start(&self) -> Result<RunState, NoMemory> {
        let alloc = self.levels.alloc;
        let top = Top {
            last: None,
            kept: true,
        };
        let mut progress = RunState {
            table: LevelTable::start(alloc)?,
            begins: IndexSet::new(alloc),
            ways: Vec::new(alloc),
            open: vec![in alloc; 0]?,
            tried: vec![in alloc; None]?,
            links: 0,
            looked: IndexSet::new(alloc),
            steps: Vec::new(alloc),
        };
        let bottom = RunBeginning {
            at: Beginning { cut: 0, top },
            run: None,
        };
        let _is_new = progress.begins.insert(bottom)?;
        progress.ways.push(Vec::new(alloc))?;
        Ok(progress)
    }

    // Follows each call that is to be tried at a node. Answers `true` where the node's cut holds
    // all answered calls, so that no call is.
    fn look_at(&self, progress: &mut RunState, place: usize) -> Result<bool, NoMemory>
        requires sight { ListsValues (R.reading self.now.levels.on.now.reader.now)
            self.now.levels.on.now.book.now self.now.levels.on.now.sight.now }
        requires open { HasOneOpen self.now.levels.on.now.book.now }
    {
        let Some(node) = progress.table.nodes.get_index(place).copied() else {
            return Ok(false);
        };
        let Some(begins) = progress.begins.get_index(node.level).copied() else {
            return Ok(false);
        };
        let at = RunBeginning {
            at: Beginning {
                cut: node.cut,
                top: begins.at.top,
            },
            run: if begins.at.cut == node.cut {
                begins.run
            } else {
                None
            },
        };
        let Some(looked) = self.steps_at(progress, at)? else {
            return Ok(true);
        };
        let Some(steps) = progress.steps.get(looked) else {
            return Ok(false);
        };
        let here = RunHere {
            place,
            node,
            top: begins.at.top,
            forced: steps.forced,
            at_once: steps.at_once,
            over: put_of_run(progress, at),
            tried: tried_at(progress, place),
        };
        for k in 0..MAX_CALLERS {
            let Some(step) = step_of(progress, looked, k) else {
                break;
            };
            self.follow(progress, here, step)?;
        }
        Ok(false)
    }

    // The number of the list of calls that are to be tried at a cut and a top, which is made once
    // and kept; or `None` where the cut holds all answered calls. After a put of a run, the list
    // has only puts.
    fn steps_at(&self, progress: &mut RunState, at: RunBeginning) -> Result<Option<usize>, NoMemory>
        requires sight { ListsValues (R.reading self.now.levels.on.now.reader.now)
            self.now.levels.on.now.book.now self.now.levels.on.now.sight.now }
        requires open { HasOneOpen self.now.levels.on.now.book.now }
    {
        if let Some(looked) = progress.looked.get_index_of(&at) {
            return Ok(Some(looked));
        }
        let Some(counts) = progress.table.cuts.get_index(at.at.cut).copied() else {
            return Ok(None);
        };
        let on = self.levels.on;
        let callers = on.book.callers() as usize;
        let Some(first) = least_open(on.book, &counts[..callers]) else {
            return Ok(None);
        };
        let Some(look) = on.look(&counts[..callers], at.at.top) else {
            return Ok(None);
        };
        let forced = Call {
            caller: first,
            number: u64::from(counts[first as usize]),
        };
        let turns = match at.run {
            Some(_) => self.puts(&look, at.at.top)?,
            None => self.levels.turns(&look, at.at.top)?,
        };
        let looked_at = RunLook {
            counts,
            top: at.at.top,
            forced,
            moment: self.moment_of(forced),
            at_once: at.run.is_none() && self.marks_one(&look),
        };
        let may_put = at.run.is_some() || self.may_put(looked_at)?;
        let mut steps = Vec::new(self.levels.alloc);
        for turn in &turns {
            if let Some(step) = self.step(progress, looked_at, turn.call, may_put)? {
                steps.push(step)?;
            }
        }
        progress.steps.push(RunSteps {
            forced,
            at_once: looked_at.at_once,
            steps,
        })?;
        let (looked, _is_new) = progress.looked.insert_full(at)?;
        Ok(Some(looked))
    }

    // Whether puts have to be tried. Where the list has a last word and more than one call has to
    // be tried, puts have to be only if the last item can stay on the list until a take of its
    // value that the forced call's view doesn't hold: up to then, all takes outside the cut can
    // have found what was put in outside the cut.
    fn may_put(&self, at: RunLook) -> Result<bool, NoMemory> {
        let Some(last) = at.top.last else {
            return Ok(true);
        };
        if at.at_once {
            return Ok(true);
        }
        let until = moment_before_take(self.calls, &at.counts, last, at.moment);
        lasts(self.levels.alloc, self.calls, &at.counts, None, until)
    }

    // A call that is to be tried, with what it leads to; or none where it needn't be tried.
    fn step(
        &self,
        progress: &mut RunState,
        at: RunLook,
        call: Call,
        may_put: bool,
    ) -> Result<Option<RunStep>, NoMemory>
        requires sight { ListsValues (R.reading self.now.levels.on.now.reader.now)
            self.now.levels.on.now.book.now self.now.levels.on.now.sight.now }
    {
        let mut is_taken = false;
        let mut in_run = false;
        if let Some(value) = self.value_put(call) {
            is_taken = self.levels.on.is_taken(value);
            in_run = is_taken && !at.at_once && self.is_put(at.forced) && !self.is_forced(at, call);
            if !may_put || (in_run && !self.may_stay(at, call, value)?) {
                return Ok(None);
            }
        }
        let more = more(&at.counts, call.caller);
        let (cut, _is_new) = progress.table.cuts.insert_full(more)?;
        Ok(Some(RunStep {
            call,
            cut,
            is_taken,
            in_run,
        }))
    }

    // Whether an answered put has to be tried as one of a run: its item can stay until past the
    // put's view, and until a take of its value that the forced call's view doesn't hold. Up to
    // then, takes outside the cut can have found what other calls outside it put in. An unanswered
    // put needn't be tried as one of a run.
    fn may_stay(&self, at: RunLook, put: Call, value: u64) -> Result<bool, NoMemory> {
        if self.view_of(put).is_none() {
            return Ok(false);
        }
        let until = moment_before_take(self.calls, &at.counts, value, at.moment);
        let until = until.max(self.moment_of(put));
        lasts(self.levels.alloc, self.calls, &at.counts, Some(put), until)
    }

    // How many calls the view of a call counts, or 0 where the call has none.
    fn moment_of(&self, call: Call) -> u64 {
        match self.calls.at(call.caller as usize, call.number as usize) {
            Some(timed) if timed.is_answered() => timed.span.last,
            _ => 0,
        }
    }

    // The value that a call of the book puts in.
    fn value_put(&self, call: Call) -> Option<u64> {
        if !self.levels.is_call(call) {
            return None;
        }
        match self.levels.on.reader.role(self.levels.on.book.op(call)) {
            Role::Put(value) => Some(value),
            Role::Take | Role::Other => None,
        }
    }

    // Whether a call is the forced call or serves for it. A call that serves for the forced call
    // has the same view, since no answered call outside the cut has a lesser one than the forced
    // call.
    fn is_forced(&self, at: RunLook, call: Call) -> bool {
        call == at.forced
            || (self.levels.is_call(call)
                && self.levels.is_call(at.forced)
                && self.levels.on.serves(at.top.last, call, at.forced))
    }

    // Whether the next call of one caller alone has to be tried.
    fn marks_one(&self, look: &NextCallers) -> bool {
        let mut marked: u32 = 0;
        for caller in 0..self.levels.on.book.callers() {
            if look.marks.has(caller) {
                marked = marked.saturating_add(1);
            }
        }
        marked == 1
    }

    // The puts that may come next and for which no other one serves, in the order in which the
    // search follows them: the nodes to which the last one leads are looked at first.
    fn puts(&self, look: &NextCallers, top: Top) -> Result<Vec<Turn>, NoMemory>
        requires wide { length look.now.cut ≡ length self.now.levels.on.now.book.now }
    {
        let mut turns = Vec::new(self.levels.alloc);
        for caller in 0..self.levels.on.book.callers() {
            let call = Call {
                caller,
                number: look.cut.get(caller),
            };
            if look.all.has(caller) && self.is_put(call) {
                self.levels.consider(&mut turns, top, call)?;
            }
        }
        turns.sort_by_key(|turn| Reverse(turn.turn))?;
        Ok(turns)
    }

    // Whether a call is one of the book's and puts in a value.
    fn is_put(&self, call: Call) -> bool {
        self.value_put(call).is_some()
    }

    // The view of a call, where it is one of the book's and answered.
    fn view_of(&self, call: Call) -> Option<Cut> {
        let book = self.levels.on.book;
        if self.levels.is_call(call) && call.number < book.answers(call.caller) {
            Some(book.record(call).view)
        } else {
            None
        }
    }

    // Follows a call from a node to all nodes that it leads to.
    fn follow(
        &self,
        progress: &mut RunState,
        here: RunHere,
        step: RunStep,
    ) -> Result<(), NoMemory> {
        let RunStep { call, cut, .. } = step;
        if !self.levels.is_call(call) {
            return Ok(());
        }
        match self.levels.on.reader.role(self.levels.on.book.op(call)) {
            Role::Put(value) => self.begin(progress, here, value, step),
            Role::Take if here.top.last.is_some() => {
                if self.was_tried(here.tried, call) {
                    return Ok(());
                }
                let take = LevelEnd {
                    node: here.place,
                    take: call,
                    cut,
                };
                self.end(progress, here.node.level, take)
            }
            Role::Take | Role::Other => {
                let node = NodeKey {
                    level: here.node.level,
                    cut,
                };
                self.reach(progress, node, None, FirstReached::Stays(here.place, call))
            }
        }
    }

    // Whether `tried` is an answered call whose view holds `call`.
    fn was_tried(&self, tried: Option<Call>, call: Call) -> bool {
        match tried {
            Some(by) => match self.view_of(by) {
                Some(view) => call.caller < view.n() && view.holds(call.caller, call.number),
                None => false,
            },
            None => false,
        }
    }

    // Follows a put to the level that it begins, which is new or was begun before. Puts begin one
    // level if they have the same value, lead to the same cut, agree in whether the list is kept,
    // and are of one caller's run or of none.
    fn begin(
        &self,
        progress: &mut RunState,
        here: RunHere,
        value: u64,
        step: RunStep,
    ) -> Result<(), NoMemory> {
        let begins = RunBeginning {
            at: Beginning {
                cut: step.cut,
                top: Top {
                    last: Some(value),
                    kept: here.top.kept && !step.is_taken,
                },
            },
            run: if step.in_run {
                Some(step.call.caller)
            } else {
                None
            },
        };
        let (level, is_new) = progress.begins.insert_full(begins)?;
        if is_new {
            let alloc = self.levels.alloc;
            progress
                .table
                .levels
                .push(Level::new(alloc, begins.at.top))?;
            progress.ways.push(Vec::new(alloc))?;
        }
        let origin = Origin {
            node: here.place,
            put: step.call,
        };
        let way = Way {
            tried: if here.at_once {
                None
            } else {
                Some(here.forced)
            },
            over: here.over,
        };
        self.lay_on(progress, level, here.node.level, origin, way)?;
        let node = NodeKey {
            level,
            cut: step.cut,
        };
        self.reach(progress, node, None, FirstReached::Begins)
    }

    // Records that a level may lie right below another one, with the put that leads from it to the
    // upper level. Each take that has ended the upper level is followed to the lower one, where it
    // has to be tried.
    fn lay_on(
        &self,
        progress: &mut RunState,
        level: usize,
        below: usize,
        origin: Origin,
        way: Way,
    ) -> Result<(), NoMemory> {
        if lies_on(progress, level, below, way) {
            return Ok(());
        }
        let Some(upper) = progress.table.levels.get_mut(level) else {
            return Ok(());
        };
        let Some(ways) = progress.ways.get_mut(level) else {
            return Ok(());
        };
        let put = upper.origins.len();
        upper.parents.push(below)?;
        upper.origins.push(origin)?;
        ways.push(way)?;
        for take in 0..upper.endings.len() {
            self.go_down(progress, level, put, take)?;
        }
        Ok(())
    }

    // Adds a take of a level's last item, if the level has no take to the same cut yet, and follows
    // it to each level that may lie right below, where it has to be tried.
    fn end(&self, progress: &mut RunState, level: usize, ending: LevelEnd) -> Result<(), NoMemory> {
        let node = NodeKey {
            level,
            cut: ending.cut,
        };
        if !progress.table.ended.insert(node)? {
            return Ok(());
        }
        let Some(upper) = progress.table.levels.get_mut(level) else {
            return Ok(());
        };
        let take = upper.endings.len();
        upper.endings.push(ending)?;
        for put in 0..upper.parents.len() {
            self.go_down(progress, level, put, take)?;
        }
        Ok(())
    }

    // Follows a take that ended a level to one of the levels that may lie right below, unless the
    // take needn't be tried from there.
    fn go_down(
        &self,
        progress: &mut RunState,
        level: usize,
        put: usize,
        take: usize,
    ) -> Result<(), NoMemory> {
        let Some(upper) = progress.table.levels.get(level) else {
            return Ok(());
        };
        let Some(ways) = progress.ways.get(level) else {
            return Ok(());
        };
        let Some(way) = ways.get(put).copied() else {
            return Ok(());
        };
        let Some(below) = upper.parents.get(put).copied() else {
            return Ok(());
        };
        let Some(ending) = upper.endings.get(take).copied() else {
            return Ok(());
        };
        let Some(lower) = progress.table.levels.get(below) else {
            return Ok(());
        };
        if lower.top.last == upper.top.last && self.was_tried(way.tried, ending.take) {
            return Ok(());
        }
        if self.is_soon(progress, way.over, ending.cut) {
            return Ok(());
        }
        let node = NodeKey {
            level: below,
            cut: ending.cut,
        };
        self.reach(
            progress,
            node,
            way.tried,
            FirstReached::Returns(level, put, take),
        )
    }

    // Whether a cut is within the view of a put, where there is a put.
    fn is_soon(&self, progress: &RunState, over: Option<Call>, cut: usize) -> bool {
        let Some(put) = over else {
            return false;
        };
        let Some(view) = self.view_of(put) else {
            return false;
        };
        let Some(counts) = progress.table.cuts.get_index(cut) else {
            return false;
        };
        for caller in 0..view.n() {
            if u64::from(counts[caller as usize]) > view.get(caller) {
                return false;
            }
        }
        true
    }

    // Counts that something leads to a node. A new node is to be looked at; a known one is to be
    // looked at again where this way leaves out fewer takes than the ways before.
    fn reach(
        &self,
        progress: &mut RunState,
        node: NodeKey,
        tried: Option<Call>,
        by: FirstReached,
    ) -> Result<(), NoMemory> {
        progress.links = progress.links.saturating_add(1);
        let (place, is_new) = progress.table.nodes.insert_full(node)?;
        if is_new {
            progress.table.reached.push(by)?;
            progress.tried.push(tried)?;
            progress.open.push(place)?;
            return Ok(());
        }
        if self.is_less(tried, tried_at(progress, place)) {
            if let Some(its) = progress.tried.get_mut(place) {
                *its = tried;
            }
            progress.open.push(place)?;
        }
        Ok(())
    }

    // Whether `other` is a call, and `tried` is none or has a view that doesn't contain the view of
    // `other`.
    fn is_less(&self, tried: Option<Call>, other: Option<Call>) -> bool {
        let Some(other) = other else {
            return false;
        };
        let Some(one) = tried else {
            return true;
        };
        let Some(its) = self.view_of(other) else {
            return false;
        };
        match self.view_of(one) {
            Some(view) => its.n() == view.n() && !its.within(&view),
            None => false,
        }
    }
}

// Call number `k` of the list `looked` of calls that are to be tried.
fn step_of(progress: &RunState, looked: usize, k: usize) -> Option<RunStep> {
    progress.steps.get(looked)?.steps.get(k).copied()
}

// The call whose view holds the takes that needn't be tried at a node.
fn tried_at(progress: &RunState, place: usize) -> Option<Call> {
    *progress.tried.get(place)?
}

// The put of a run that leads to the cut of `at`, if there is one: the last call of the caller
// `at.run` that the cut holds.
fn put_of_run(progress: &RunState, at: RunBeginning) -> Option<Call> {
    let caller = at.run?;
    let counts = progress.table.cuts.get_index(at.at.cut)?;
    let count = counts.get(caller as usize).copied()?;
    Some(Call {
        caller,
        number: u64::from(count).saturating_sub(1),
    })
}

// Whether `level` is recorded as laid on `below` in the way `way`.
fn lies_on(progress: &RunState, level: usize, below: usize, way: Way) -> bool {
    let Some(upper) = progress.table.levels.get(level) else {
        return false;
    };
    let Some(ways) = progress.ways.get(level) else {
        return false;
    };
    for k in 0..ways.len() {
        if ways[k] == way && upper.parents.get(k).copied() == Some(below) {
            return true;
        }
    }
    false
}
