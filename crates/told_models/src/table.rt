ghost use Rattle.std.specs.Prelude.{◌≡◌, ◌↔◌, ℕ, ◌+◌, ◌<◌, ◌≤◌, true, [], length, slice_get, Contains, IsTrue, Some, None, IfSome, IfNone, IfOk, OnOk, IfErr, OnErr};
ghost use Rattle.std.specs.BTreeMap.{get};
ghost use Rattle.told_models.specs.declared.table.Transition.{Transition};
ghost use Rattle.told_models.specs.declared.fault.PromiseFault.{PromiseFault};
ghost use Rattle.book_base.specs.declared.TheConstants.{BAD};
ghost use Rattle.told_models.specs.Table.{told_step, is_same_pair, pair_order, IsPromised, HasToldStep, HasSteps, HasPromises, KeepsPromises, Extends, TellsStep, TakesPromise, IsTellFault, IsPromiseFault};
ghost use Rattle.told_models.specs.Closed.{IsNear, IsClosedTo};
ghost use Rattle.told_models.specs.Dialogue.{IsAsk};
ghost use Rattle.told_models.specs.Search.{Continues, LeadsInto, AreExpanded, AreNear};
ghost use Rattle.told_models.specs.Completion.{completion, completion-knows_all};

use crate::fault::{PromiseFault, TellFault};
use book_base::{BAD, NoMemory, OpWord, SeqObject, State};
use indexmap::{IndexMap, IndexSet};
use search_hints::SearchHints;
use std::alloc::Global;
use std::collections::{BTreeMap, BTreeSet};
use std::marker::Model;

/// What an operation does at a state: the number of the next state, and the reply word.
#[derive(Clone, Copy, Debug, PartialEq, Eq)]
pub struct Transition {
    pub next: u64,
    pub reply: u64,
}

/// What was told of an object so far: the number of its initial state, at states and operations the
/// transition that the object makes there, and promises: an operation and a reply with which it
/// changes no state of the object.
///
/// Whoever tells gives the numbers to the states of the object, and answers for the promises: each
/// told step is held against them.
///
/// As a sequential object a table is its completion: where nothing was told the list stays as it is
/// and the reply is `BAD`. What a check says of it holds for each object that agrees only where the
/// table is closed under the book's operation words to the number of the book's calls
/// (`laws::closed_tables_decide`).
#[derive(Debug, Drop)]
pub struct ToldTable {
    init: u64,
    steps: IndexMap<(u64, OpWord), Transition>,
    promises: IndexSet<(OpWord, u64)>,
}

impl Model for ToldTable {
    ghost use Rattle.told_models.specs.Table.{Table, KeepsPromises};

    ghost Value = { Table };

    ghost view = { λ t. record {
      init = t.init;
      steps = t.steps.entries;
      promises = t.promises.keys;
    } };

    ghost invariant = { λ t. KeepsPromises (record {
      init = t.init;
      steps = t.steps.entries;
      promises = t.promises.keys;
    }) };
}

impl ToldTable {
    /// The table of an object of which only the number of the initial state was told.
    pub fn new(alloc: Global, init: u64) -> ToldTable
        ensures { result ≡ record { init = init; steps = []; promises = [] } }
    {
        ToldTable {
            init,
            steps: IndexMap::new(alloc),
            promises: IndexSet::new(alloc),
        }
    }

    /// The number of the initial state.
    pub fn init(&self) -> u64
        // The answer is the number of the initial state.
        ensures init { result ≡ self.now.init }
        // The told steps keep the promises.
        ensures keeps { KeepsPromises self.now }
    {
        self.init
    }

    /// The transition that an operation was told to make at a state, where one was told.
    pub fn get(&self, state: u64, op: OpWord) -> Option<Transition>
        ensures { result ≡ told_step self.now state op }
    {
        self.steps.get(&(state, op)).copied()
    }

    /// Tells the transition of an operation at a state. A table takes a step that it has already,
    /// and stays as it is.
    pub fn tell(&mut self, state: u64, op: OpWord, transition: Transition) -> Result<(), TellFault>
        // The table has the step now, and all other steps are as before.
        ensures told { IfOk result (λ _. TellsStep self.old self.new state op transition) }
        // A step that the table has already leaves it as it is.
        ensures again { told_step self.old state op ≡ Some transition → self.new ≡ self.old }
        // What was told stays told.
        ensures kept { Extends self.old self.new }
        // A step is refused only where another transition was told there, which the refusal names,
        // where it breaks a promise, or for want of memory for a new step.
        ensures refusal { IfErr result (IsTellFault self.old state op transition) }
        // A refusal changes nothing.
        ensures refused { OnErr result (self.new ≡ self.old) }
    {
        if let Some(told) = self.get(state, op) {
            if told == transition {
                return Ok(());
            }
            return Err(TellFault::Contradicts(told));
        }
        if transition.next != state && self.is_promised(op, transition.reply) {
            return Err(TellFault::LeavesNot);
        }
        self.add(state, op, transition)
    }

    /// Promises that an operation changes no state at which it has this reply. A table takes a
    /// promise that it has already, and stays as it is.
    pub fn promise(&mut self, op: OpWord, reply: u64) -> Result<(), PromiseFault>
        // The table has the promise now, and is as before besides.
        ensures promised { IfOk result (λ _. TakesPromise self.old self.new op reply) }
        // What was told and promised stays so.
        ensures kept { Extends self.old self.new }
        // A promise is refused only where a told step breaks it, whose state the refusal names, or
        // for want of memory for a new promise.
        ensures refusal { IfErr result (IsPromiseFault self.old op reply) }
        // A refusal changes nothing.
        ensures refused { OnErr result (self.new ≡ self.old) }
    {
        if let Some(state) = self.changed_by(op, reply) {
            return Err(PromiseFault::LeavesNot(state));
        }
        self.add_promise(op, reply)
    }

    /// Whether it is promised that an operation changes no state at which it has this reply.
    pub fn is_promised(&self, op: OpWord, reply: u64) -> bool
        ensures { IsTrue result ↔ IsPromised self.now op reply }
    {
        self.promises.contains(&(op, reply))
    }

    // How many promises the table has.
    pub(crate) fn number_of_promises(&self) -> usize {
        self.promises.len()
    }

    /// The told steps, in the order of their states and then of their operation words.
    pub fn steps(&self, alloc: Global) -> Result<BTreeMap<(u64, OpWord), Transition>, NoMemory>
        // The map has at each pair of a state and an operation word the transition that was told
        // there, and nothing where none was.
        ensures steps { IfOk result (HasSteps self.now) }
        // The told steps keep the promises.
        ensures keeps { KeepsPromises self.now }
    {
        let mut steps = BTreeMap::new(alloc);
        for k in 0..self.steps.len() {
            self.add_step_at(k, &mut steps)?;
        }
        Ok(steps)
    }

    /// The promises, in the order of their operation words and then of their replies.
    pub fn promises(&self, alloc: Global) -> Result<BTreeSet<(OpWord, u64)>, NoMemory>
        // The set has each promise, and nothing else.
        ensures promises { IfOk result (HasPromises self.now) }
    {
        let mut promises = BTreeSet::new(alloc);
        for k in 0..self.promises.len() {
            promises.insert(self.promises[k])?;
        }
        Ok(promises)
    }

    // Adds the step at a place of the table to a map of told steps.
    fn add_step_at(
        &self,
        k: usize,
        steps: &mut BTreeMap<(u64, OpWord), Transition>,
    ) -> Result<(), NoMemory>
        ensures added { OnOk result ((state op : ℕ) (transition : Transition)
            → slice_get self.now.steps k ≡ Some ((state, op), transition)
            → get pair_order steps.new (state, op) ≡ told_step self.now state op) }
        ensures kept { OnOk result ((state op : ℕ)
            → get pair_order steps.old (state, op) ≡ told_step self.now state op
            → get pair_order steps.new (state, op) ≡ told_step self.now state op) }
        ensures own { OnOk result (((state op : ℕ) → HasToldStep self.now steps.old state op)
            → (state op : ℕ) → HasToldStep self.now steps.new state op) }
    {
        let Some(((state, op), _)) = self.steps.get_index(k) else {
            return Ok(());
        };
        if let Some(transition) = self.get(*state, *op) {
            steps.insert((*state, *op), transition)?;
        }
        Ok(())
    }

    /// A pair of a state and one of these operation words whose step wasn't told, where fewer than
    /// `most` told steps of these words lead from the initial state to the state; the first one of
    /// a search that is breadth first. Once none is left the table is closed to this depth under
    /// these words. At `most` no less than the number of a book's calls, it is so for the book.
    pub fn untold(
        &self,
        alloc: Global,
        ops: &IndexSet<OpWord>,
        most: u64,
    ) -> Result<Option<(u64, OpWord)>, NoMemory>
        // A pair in the answer may be asked for.
        ensures ask { IfOk result (λ found. IfSome found
            (λ pair. IsAsk self.now (Contains ops.now.keys) most pair.0 pair.1)) }
        // The told steps keep the promises.
        ensures keeps { IfOk result (λ _. KeepsPromises self.now) }
        // Where no pair is left, the table is closed to this depth under these words.
        ensures closed { IfOk result
            (λ found. IfNone found (IsClosedTo self.now (Contains ops.now.keys) most)) }
    {
        let mut states = IndexSet::new(alloc);
        states.insert(self.init)?;
        let mut first = 0;
        for _steps in 0..most {
            let end = states.len();
            if first == end {
                break;
            }
            if let Some(pair) = self.expand(&mut states, first, ops)? {
                return Ok(Some(pair));
            }
            first = end;
        }
        Ok(None)
    }

    // Adds the states to which a step of these words leads from the states at `first` and later. Or
    // finds a step there that wasn't told.
    fn expand(
        &self,
        states: &mut IndexSet<u64>,
        first: usize,
        ops: &IndexSet<OpWord>,
    ) -> Result<Option<(u64, OpWord)>, NoMemory>
        ensures untold { IfOk result (λ found. IfSome found
            (λ pair. Contains states.old.keys pair.0 × Contains ops.now.keys pair.1
            × (told_step self.now pair.0 pair.1 ≡ None))) }
        ensures continues { OnOk result (Continues states.old.keys states.new.keys) }
        ensures expanded { IfOk result (λ found. IfNone found
            (AreExpanded self.now ops.now.keys states.new.keys first (length states.old.keys))) }
        ensures near { OnOk result ((most : ℕ) → AreNear self.now ops.now.keys most states.old.keys
            → AreNear self.now ops.now.keys (most + 1) states.new.keys) }
    {
        for k in first..states.len() {
            let state = states[k];
            if let Some(op) = self.expand_at(states, state, ops)? {
                return Ok(Some((state, op)));
            }
        }
        Ok(None)
    }

    // Adds the states to which a step of these words leads from a state. Or finds one of these
    // words whose step wasn't told there.
    fn expand_at(
        &self,
        states: &mut IndexSet<u64>,
        state: u64,
        ops: &IndexSet<OpWord>,
    ) -> Result<Option<OpWord>, NoMemory>
        ensures untold { IfOk result (λ found. IfSome found
            (λ op. Contains ops.now.keys op × (told_step self.now state op ≡ None))) }
        ensures continues { OnOk result (Continues states.old.keys states.new.keys) }
        ensures expanded { IfOk result (λ found. IfNone found ((op : ℕ) → Contains ops.now.keys op
            → LeadsInto self.now states.new.keys state op)) }
        ensures near { OnOk result ((most : ℕ) → IsNear self.now (Contains ops.now.keys) most state
            → AreNear self.now ops.now.keys (most + 1) states.old.keys
            → AreNear self.now ops.now.keys (most + 1) states.new.keys) }
    {
        for k in 0..ops.len() {
            let op = ops[k];
            let Some(transition) = self.get(state, op) else {
                return Ok(Some(op));
            };
            states.insert(transition.next)?;
        }
        Ok(None)
    }

    // Puts in the transition of a pair at which none was told.
    fn add(&mut self, state: u64, op: OpWord, transition: Transition) -> Result<(), TellFault>
        requires untold { told_step self.old state op ≡ None }
        requires keeps { IsPromised self.old op transition.reply → transition.next ≡ state }
        ensures told { IfOk result (λ _. TellsStep self.old self.new state op transition) }
        ensures kept { Extends self.old self.new }
        ensures refusal { IfErr result (IsTellFault self.old state op transition) }
        ensures refused { OnErr result (self.new ≡ self.old) }
    {
        let Ok(_) = self.steps.insert((state, op), transition) else {
            return Err(TellFault::NoMemory);
        };
        Ok(())
    }

    // A state at which an operation was told to have this reply and to lead to another state, where
    // there is one.
    fn changed_by(&self, op: OpWord, reply: u64) -> Option<u64>
        ensures some { IfSome result
            (λ state. IsPromiseFault self.now op reply (PromiseFault.LeavesNot state)) }
        ensures none { IfNone result ((state : ℕ) (transition : Transition)
            → told_step self.now state op ≡ Some transition → transition.reply ≡ reply
            → transition.next ≡ state) }
    {
        for k in 0..self.steps.len() {
            if let Some(((state, word), transition)) = self.steps.get_index(k) {
                if *word == op && transition.reply == reply && transition.next != *state {
                    return Some(*state);
                }
            }
        }
        None
    }

    // Puts in a promise that the told steps keep.
    fn add_promise(&mut self, op: OpWord, reply: u64) -> Result<(), PromiseFault>
        requires { (state : ℕ) (transition : Transition)
            → told_step self.old state op ≡ Some transition → transition.reply ≡ reply
            → transition.next ≡ state }
        ensures promised { IfOk result (λ _. TakesPromise self.old self.new op reply) }
        ensures kept { Extends self.old self.new }
        ensures refusal { IfErr result (IsPromiseFault self.old op reply) }
        ensures refused { OnErr result (self.new ≡ self.old) }
    {
        let Ok(_) = self.promises.insert((op, reply)) else {
            return Err(PromiseFault::NoMemory);
        };
        Ok(())
    }
}

impl SeqObject for ToldTable {
    ghost is_known = { λ _ _. true };

    ghost spec = { completion };

    ghost unknown_is_bad = { completion-knows_all };

    fn known(&self, _op: OpWord) -> bool {
        true
    }

    /// One word, the number of a state.
    fn capacity(&self, _operations: u64) -> u64 {
        1
    }

    fn reset(&self, state: &mut State) {
        state.clear();
        state.push(self.init);
    }

    fn step(&self, state: &mut State, op: OpWord) -> u64 {
        if state.len() != 1 {
            return BAD;
        }
        match self.get(state.get(0), op) {
            Some(transition) => {
                state.clear();
                state.push(transition.next);
                transition.reply
            }
            None => BAD,
        }
    }
}

impl SearchHints for ToldTable {}
