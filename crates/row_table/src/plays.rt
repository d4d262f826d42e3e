//! The rule of the table, and what a seat knows after its steps. These types are for the proofs
//! alone.
ghost use Rattle.std.specs.Prelude.{ℕ};
ghost use Rattle.world_core.specs.Shape.{Shape};
ghost use Rattle.world_core.specs.Event.{Event, Announce};
ghost use Rattle.world_core.specs.Programs.{outside};
ghost use Rattle.world_core.specs.Local.{fresh};
ghost use Rattle.row_table.specs.Holders.{whole};
ghost use Rattle.row_table.specs.Seats.{Ruled, Tells, TellsOfSome, Shows};

use crate::held::{Held, Holding};
use atomic_table::{Play, TableRule};
use std::marker::{Brand, PhantomData};
use world_core::{Local, Program};

impl Holding for Local {
    ghost start = { fresh };
}

/// What a table of rows is made with: its program, its number of callers, its cap and its number of
/// object words.
#[derive(Drop)]
pub struct Key<P> {
    pub program: P,
    pub callers: u32,
    pub cap: u64,
    pub objects: u64,
}

/// The rule of the table of a program.
pub struct Worlds<P> {
    program: PhantomData<P>,
}

impl<P: Program> TableRule<(), Held<Local>, Key<P>> for Worlds<P> {
    ghost holds = { λ key. Ruled (record { callers = key.callers; cap = key.cap; program = P.meaning key.program key.callers key.cap }) key.objects };

    ghost first = { λ key. whole key.callers fresh };
}

/// A step as an event: the shape of the world that it is made in, the caller that makes it, and its
/// event for each word that it may find. A call that names `Brand` as the type chooses all three.
pub trait StepEvent {
    ghost shape: { Shape };

    ghost who: { ℕ };

    ghost event: { ℕ → Event };
}

impl StepEvent for Brand {
    ghost shape = { record { callers = 0; cap = 0; program = outside } };

    ghost who = { 0 };

    ghost event = { λ _. Announce };
}

/// A step that is an event: the view of its seat is then the one after this event.
pub struct Does<J> {
    deed: PhantomData<J>,
}

impl<J: StepEvent> Play<(), Held<Local>> for Does<J> {
    ghost then = { λ st me found after. Tells J.shape J.who J.event me found after };
}

/// A store that is an event: the word that it found isn't answered.
pub struct Writes<J> {
    deed: PhantomData<J>,
}

impl<J: StepEvent> Play<(), Held<Local>> for Writes<J> {
    ghost then = { λ st me _ after. TellsOfSome J.shape J.who J.event me after };
}

/// A load that is no event, after which the locals of the seat are known to be those of one
/// reachable world.
pub struct Learns<J> {
    deed: PhantomData<J>,
}

impl<J: StepEvent> Play<(), Held<Local>> for Learns<J> {
    ghost then = { λ st me _ after. Shows J.shape me after };
}
