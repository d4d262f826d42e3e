use crate::NEVER;
use crate::next_entries::{NextEntries, TimedPair};
use crate::standing::PairState;
use crate::surplus::Surplus;
use crate::table::{QueueDeal, Table, TimedCall};
use crate::walk::{PairStep, PairWalk, StepChoice};
use book_base::{MAX_CALLERS, NoMemory};
use indexmap::IndexSet;
use std::alloc::Global;
use std::cmp::Reverse;
use std::mem;

/// What a search for pairs answers.
#[derive(Drop)]
pub enum PairsFound {
    /// A walk whose frames have pairs for all answered takes.
    Pairs(PairWalk),
    /// All was tried, and no pairs were found: the standings that the search entered.
    DeadEnds(IndexSet<PairState>),
    /// The search had too few steps to say.
    Unsaid,
}

/// A search for pairs of the puts and takes of a queue's book.
pub struct PairSearch<'a> {
    pub alloc: Global,
    pub table: &'a Table,
    pub surplus: &'a Surplus,
    /// Whether unanswered takes take only what answered ones leave. Otherwise they may take any
    /// value, so that more is tried.
    pub by_surplus: bool,
    /// How many steps the search may make before it answers `Unsaid`.
    pub steps: u64,
}

impl Drop for PairSearch<'_> {
    fn drop(self) {
        let PairSearch {
            alloc: _,
            table: _,
            surplus: _,
            by_surplus: _,
            steps: _,
        } = self;
    }
}

impl PairSearch<'_> {
    /// Looks for a walk whose frames have pairs for all answered takes.
    pub fn run(&self) -> Result<PairsFound, NoMemory> {
        let mut walk = PairWalk::new(self.alloc);
        let _is_new = walk.entered.insert(walk.here)?;
        let next_entries = NextEntries::of(self.table, &walk.here);
        if next_entries.is_whole(&walk.here) {
            return Ok(PairsFound::Pairs(walk));
        }
        walk.choices = self.choices(&walk, &walk.here, &next_entries)?;
        for _ in 0..self.steps {
            match walk.choices.pop() {
                Some(choice) => {
                    if self.enter(&mut walk, choice)? {
                        return Ok(PairsFound::Pairs(walk));
                    }
                }
                None => {
                    if !walk.retreat() {
                        let none = IndexSet::new(self.alloc);
                        return Ok(PairsFound::DeadEnds(mem::replace(&mut walk.entered, none)));
                    }
                }
            }
        }
        Ok(PairsFound::Unsaid)
    }

    // Goes on to the standing of a choice, unless the walk was there before, and answers whether
    // that standing is whole.
    fn enter(&self, walk: &mut PairWalk, choice: StepChoice) -> Result<bool, NoMemory> {
        if !walk.entered.insert(choice.to)? {
            return Ok(false);
        }
        if let PairStep::Pair(pair) = choice.step
            && !pair.take.is_answered()
            && let QueueDeal::Put(value) = pair.put.deal
        {
            walk.spent.push(value)?;
        }
        let next_entries = NextEntries::of(self.table, &choice.to);
        let choices = self.choices(walk, &choice.to, &next_entries)?;
        walk.enter(choice, choices)?;
        Ok(next_entries.is_whole(&choice.to))
    }

    // What is to be tried at a standing. The choice whose takes have the earliest last moment
    // stands last, and is tried first. Of the callers' next takes that are unanswered, only the one
    // with the earliest first moment is tried.
    fn choices(
        &self,
        walk: &PairWalk,
        standing: &PairState,
        next_entries: &NextEntries,
    ) -> Result<Vec<StepChoice>, NoMemory> {
        let mut choices = Vec::new(self.alloc);
        if let Some(choice) = finds_next(standing, next_entries) {
            choices.push(choice)?;
            if choice.to.take_moment <= standing.take_moment {
                return Ok(choices);
            }
        }
        let mut open: Option<TimedCall> = None;
        for caller in 0..MAX_CALLERS {
            if let Some(take) = next_entries.takes[caller]
                && take.is_held()
            {
                if take.is_answered() {
                    self.add_pairs(walk, standing, next_entries, take, &mut choices)?;
                } else {
                    open = earlier_of(open, take);
                }
            }
        }
        if let Some(take) = open {
            self.add_pairs(walk, standing, next_entries, take, &mut choices)?;
        }
        choices.sort_by_key(|choice| Reverse(choice.turn))?;
        Ok(choices)
    }

    // Adds the pairs of a take with each put whose value it may take out, but for those for which
    // another pair serves.
    fn add_pairs(
        &self,
        walk: &PairWalk,
        standing: &PairState,
        next_entries: &NextEntries,
        take: TimedCall,
        choices: &mut Vec<StepChoice>,
    ) -> Result<(), NoMemory> {
        for caller in 0..MAX_CALLERS {
            if let Some(put) = next_entries.puts[caller]
                && put.is_held()
                && self.may_pair(walk, put, take)
                && let Some(choice) = pair_next(standing, next_entries, put, take)
                && !choices.iter().any(|other| serves(other, &choice))
            {
                choices.push(choice)?;
            }
        }
        Ok(())
    }

    // Whether a take may take out what a put puts in. An unanswered take takes nothing of an
    // unanswered put, and, where `by_surplus` is true, only what the answered takes leave.
    fn may_pair(&self, walk: &PairWalk, put: TimedCall, take: TimedCall) -> bool {
        match (put.deal, take.deal) {
            (QueueDeal::Put(value), QueueDeal::Took(shown)) => value == shown,
            (QueueDeal::Put(value), QueueDeal::OpenTake) => put.is_answered()
                && self.is_left(walk, value),
            _ => false,
        }
    }

    // Whether the answered takes leave one more item of a value. It is true wherever `by_surplus`
    // is false.
    fn is_left(&self, walk: &PairWalk, value: u64) -> bool {
        !self.by_surplus || walk.times_spent(value) < self.surplus.of_value(value)
    }
}

// The takes that find nothing and may come next at a standing, at the earliest moment.
fn finds_next(standing: &PairState, next_entries: &NextEntries) -> Option<StepChoice> {
    if next_entries.find_first == NEVER {
        return None;
    }
    let moment = standing.take_moment.max(next_entries.find_first);
    if next_entries.is_past(moment, moment) {
        return None;
    }
    Some(StepChoice {
        turn: next_entries.find_limit,
        step: PairStep::Finds(standing.found, moment),
        to: standing.with_finds(moment),
    })
}

// The choice of a pair at the earliest moments that it may have, or `None` where some remaining
// call is due before these moments.
fn pair_next(
    standing: &PairState,
    next_entries: &NextEntries,
    put: TimedCall,
    take: TimedCall,
) -> Option<StepChoice> {
    let pair = TimedPair::earliest(standing, put, take);
    if next_entries.is_past(pair.put_moment, pair.take_moment) {
        return None;
    }
    Some(StepChoice {
        turn: take.span.last,
        step: PairStep::Pair(pair),
        to: standing.with_pair(&pair),
    })
}

// Of two calls the one with the earlier first moment.
fn earlier_of(one: Option<TimedCall>, other: TimedCall) -> Option<TimedCall> {
    match one {
        Some(first) if first.span.first <= other.span.first => one,
        _ => Some(other),
    }
}

// Whether one choice serves for another one, so that the other needn't be tried.
fn serves(one: &StepChoice, other: &StepChoice) -> bool {
    match (one.step, other.step) {
        (PairStep::Pair(pair), PairStep::Pair(others)) => pair.serves(&others),
        _ => false,
    }
}
