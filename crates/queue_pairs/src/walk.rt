use crate::next_entries::TimedPair;
use crate::standing::PairState;
use book_base::NoMemory;
use indexmap::IndexSet;
use std::alloc::Global;
use std::mem;

/// A step of a search of pairs.
#[derive(Clone, Copy)]
pub enum PairStep {
    /// A put, and the take that takes its value out.
    Pair(TimedPair),
    /// The takes that find nothing and that some view holds up to the second moment, and none up to
    /// the first.
    Finds(u64, u64),
}

/// A step that may be tried, the standing to which it leads, and its turn: of several choices the
/// one with the least turn is tried first.
#[derive(Clone, Copy)]
pub struct StepChoice {
    pub turn: u64,
    pub step: PairStep,
    pub to: PairState,
}

/// A standing on the way to the present one of a walk: the step that was taken there, and what is
/// still to be tried there besides it.
#[derive(Drop)]
pub struct PairFrame {
    pub from: PairState,
    pub choice: StepChoice,
    pub choices: Vec<StepChoice>,
}

/// How far a search has come: the frames that lead to its present standing, this standing, what is
/// still to be tried there with the best choice last, the values that unanswered takes took on the
/// way, and all standings that were entered.
#[derive(Drop)]
pub struct PairWalk {
    pub frames: Vec<PairFrame>,
    pub here: PairState,
    pub choices: Vec<StepChoice>,
    pub spent: Vec<u64>,
    pub entered: IndexSet<PairState>,
}

impl PairWalk {
    /// A walk at the standing that covers no call.
    pub fn new(alloc: Global) -> PairWalk {
        PairWalk {
            frames: Vec::new(alloc),
            here: PairState::start(),
            choices: Vec::new(alloc),
            spent: Vec::new(alloc),
            entered: IndexSet::new(alloc),
        }
    }

    /// Goes on to the standing of a choice, at which `choices` may be tried.
    pub fn enter(&mut self, choice: StepChoice, choices: Vec<StepChoice>) -> Result<(), NoMemory> {
        let frame = PairFrame {
            from: self.here,
            choice,
            choices: mem::replace(&mut self.choices, choices),
        };
        self.here = choice.to;
        self.frames.push(frame)?;
        Ok(())
    }

    /// Goes back by a step, and answers whether there was one.
    pub fn retreat(&mut self) -> bool {
        match self.frames.pop() {
            Some(frame) => {
                let PairFrame {
                    from,
                    choice,
                    choices,
                } = frame;
                if let PairStep::Pair(pair) = choice.step
                    && !pair.take.is_answered()
                {
                    let _value = self.spent.pop();
                }
                self.here = from;
                self.choices = choices;
                true
            }
            None => false,
        }
    }

    /// How often unanswered takes took a value on the way to the present standing.
    pub fn times_spent(&self, value: u64) -> usize {
        self.spent.iter().filter(|spent| **spent == value).count()
    }
}
