//! What the seats of a table hold of its callers, and how a caller gets a seat of its own and leaves
//! it. These types are for the proofs alone.
ghost use Rattle.std.specs.Prelude.{ℕ, [], None, slice_set};
ghost use Rattle.row_table.specs.Holders.{has, held_or, only, union_of};

use atomic_table::{Join, Split};
use std::marker::{Brand, Model, PhantomData};

/// What a seat may hold of a caller, and the value of a caller that has made no step.
pub trait Holding {
    ghost start: { Self };
}

/// The kind of what a seat knows: of each caller a value, where the seat holds it. No value of this
/// type is made.
pub struct Held<T> {
    of: PhantomData<T>,
}

impl<T> Model for Held<T> {
    ghost use Rattle.std.specs.Prelude.{List, [], Option};

    ghost Value = { List (Option T) };

    ghost view = { λ _. [] };
}

/// Which caller gets a seat of its own. A function that passes `Brand` for this type chooses the
/// caller in its proof.
pub trait Part {
    ghost who: { ℕ };
}

impl Part for Brand {
    ghost who = { 0 };
}

/// The step by which one caller gets a seat of its own.
pub struct Leaves<J> {
    part: PhantomData<J>,
}

impl<T: Holding, J: Part> Split<Held<T>> for Leaves<J> {
    ghost left = { λ v. slice_set v J.who None };

    ghost right = { λ v. only J.who (held_or T.start (has v J.who)) };
}

/// The step by which a seat takes over the callers of another seat, whose view is empty afterwards.
pub struct Returns;

impl<T> Join<Held<T>> for Returns {
    ghost both = { union_of };

    ghost spent = { [] };
}
