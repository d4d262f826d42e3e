//! What makes the object histories of a program linearizable. Each law is the contract of a
//! function with nothing in it.

ghost use Rattle.world_objects.specs.Effects.{EffectsLinearize, TheOrderIsOfEffects};
ghost use Rattle.world_objects.specs.OneWord.{OneWordsLinearize, OneWordOrdersAreOfSteps};
ghost use Rattle.world_objects.specs.TallyAndCell.{TallyServesCounter, CellServesRegister, TalliesLinearize, CellsLinearize};

/// Where the calls of all runs take effect one at a time, each between its announcement and its
/// return, the object history of every run is linearizable, in the order of effects (Herlihy and
/// Wing 1990).
pub fn effects_linearize()
    // Where calls take effect one at a time, the object history of each run is linearizable.
    ensures linearizable { EffectsLinearize }
    // Where calls take effect one at a time, the order of effects linearizes the object history of
    // each run.
    ensures order { TheOrderIsOfEffects }
{}

/// Every run of an object of one word is linearizable for the sequential object that it serves: a
/// call takes effect at its one step, or at its announcement where its operation makes no step.
pub fn one_words_linearize()
    // The object history of each run of an object of one word is linearizable for the sequential
    // object that it serves.
    ensures linearizable { OneWordsLinearize }
    // A run of an object of one word has a linearization in the order in which calls take effect:
    // each at its step, or at its announcement where it makes no step.
    ensures order { OneWordOrdersAreOfSteps }
{}

/// The tally serves the counter, so that every run of it is linearizable.
pub fn tallies_linearize()
    // The tally serves the counter.
    ensures serves { TallyServesCounter }
    // The object history of each run of the tally is linearizable for the counter.
    ensures linearizable { TalliesLinearize }
{}

/// The cell serves the register, so that every run of it is linearizable.
pub fn cells_linearize()
    // The cell serves the register.
    ensures serves { CellServesRegister }
    // The object history of each run of the cell is linearizable for the register.
    ensures linearizable { CellsLinearize }
{}
