//! The rule of a log's table, and how each kind of step changes the hand of its caller. These types
//! are for the proofs alone.
ghost use Rattle.std.specs.Prelude.{ℕ};
ghost use Rattle.row_table.specs.Holders.{whole};
ghost use Rattle.shared_words.specs.Hands.{empty};
ghost use Rattle.shared_words.specs.LogRule.{Ruled, Turns, Stages, Looks, Places, Reads};

use atomic_table::{Play, TableRule};
use row_table::{Held, Holding};
use std::marker::{Brand, Model, PhantomData};

/// What a seat holds of a caller: its hand. No value of this type is made.
pub struct Hands;

impl Model for Hands {
    ghost use Rattle.shared_words.specs.Hands.{Hand, empty};

    ghost Value = { Hand };

    ghost view = { λ _. empty };
}

impl Holding for Hands {
    ghost start = { empty };
}

/// What the table is told once: how many callers it has, and how many calls each of them may make.
#[derive(Drop)]
pub struct Key {
    pub callers: u32,
    pub cap: u64,
}

/// The rule of the table: its words and the hands of its callers have one log.
pub struct OneLog;

impl TableRule<(), Held<Hands>, Key> for OneLog {
    ghost holds = { λ key. Ruled key.callers key.cap };

    ghost first = { λ key. whole key.callers empty };
}

/// The number of callers of a log, the cap on the calls of each, and which caller makes a step. A
/// function that passes `Brand` for this type chooses these numbers in its proof.
pub trait LogStep {
    ghost callers: { ℕ };

    ghost cap: { ℕ };

    ghost who: { ℕ };
}

impl LogStep for Brand {
    ghost callers = { 0 };

    ghost cap = { 0 };

    ghost who = { 0 };
}

/// The step that stores a word of the caller's next operation.
pub struct Stage<J> {
    part: PhantomData<J>,
}

impl<J: LogStep> Play<(), Held<Hands>> for Stage<J> {
    ghost then = { λ st me _ after. Turns J.who me after (Stages st.first) };
}

/// The step that loads the ticket at the first place of the log that the caller doesn't know.
pub struct Look<J> {
    part: PhantomData<J>,
}

impl<J: LogStep> Play<(), Held<Hands>> for Look<J> {
    ghost then = { λ st me found after. Turns J.who me after (Looks J.callers J.cap J.who found) };
}

/// The step that compares and exchanges the ticket at the first place of the log that the caller
/// doesn't know.
pub struct Place<J> {
    part: PhantomData<J>,
}

impl<J: LogStep> Play<(), Held<Hands>> for Place<J> {
    ghost then = { λ st me found after. Turns J.who me after (Places J.callers J.cap J.who st.word found) };
}

/// The step that loads a word of the operation of a call.
pub struct Read<J> {
    part: PhantomData<J>,
}

impl<J: LogStep> Play<(), Held<Hands>> for Read<J> {
    ghost then = { λ st me found after. Turns J.who me after (Reads J.cap st.word found) };
}
