//! The rule of the table of shared words, and what a seat learns by its steps. These types are for
//! the proofs alone.
ghost use Rattle.std.specs.Prelude.{[]};
ghost use Rattle.row_table.specs.Holders.{whole};
ghost use Rattle.shared_words.specs.Deeds as deeds;
ghost use Rattle.shared_words.specs.Rule.{Ruled, Accesses};

use crate::usage::Usage;
use atomic_table::{Play, TableRule};
use row_table::{Held, Holding};
use std::marker::{Model, PhantomData};

/// What a seat holds of a caller: the history up to the caller's last access. No value of this type
/// is made.
pub struct Histories;

impl Model for Histories {
    ghost use Rattle.std.specs.Prelude.{List, []};
    ghost use Rattle.shared_words.specs.Histories.{Access};

    ghost Value = { List Access };

    ghost view = { λ _. [] };
}

impl Holding for Histories {
    ghost start = { [] };
}

/// What the table is told once: how many callers and how many words it has.
#[derive(Drop)]
pub struct Key {
    pub callers: u32,
    pub count: usize,
}

/// The rule of the table: its words and what its seats know have one history.
pub struct OneHistory<U> {
    usage: PhantomData<U>,
}

impl<U: Usage> TableRule<(), Held<Histories>, Key> for OneHistory<U> {
    ghost holds = { λ key. Ruled U.may key.callers key.count };

    ghost first = { λ key. whole key.callers [] };
}

/// The step that adds to a word.
pub struct Adds<U> {
    usage: PhantomData<U>,
}

impl<U: Usage> Play<(), Held<Histories>> for Adds<U> {
    ghost then = { λ st me found after.
        Accesses U.may me after (deeds.Added st.word st.first found) };
}

/// The step that stores into a word.
pub struct Stores<U> {
    usage: PhantomData<U>,
}

impl<U: Usage> Play<(), Held<Histories>> for Stores<U> {
    ghost then = { λ st me _ after. Accesses U.may me after (deeds.Stored st.word st.first) };
}

/// The step that loads a word.
pub struct Loads<U> {
    usage: PhantomData<U>,
}

impl<U: Usage> Play<(), Held<Histories>> for Loads<U> {
    ghost then = { λ st me found after. Accesses U.may me after (deeds.Loaded st.word found) };
}

/// The step that swaps a word for another one.
pub struct Swaps<U> {
    usage: PhantomData<U>,
}

impl<U: Usage> Play<(), Held<Histories>> for Swaps<U> {
    ghost then = { λ st me found after.
        Accesses U.may me after (deeds.Swapped st.word st.first found) };
}
