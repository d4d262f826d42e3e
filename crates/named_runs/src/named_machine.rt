//! The machines of the log objects that have a name.

ghost use Rattle.std.specs.Prelude.{ℕ, List};
ghost use Rattle.world_core.specs.Calls.{Made};
ghost use Rattle.core_runs.specs.Logged.{IsLoggedBy};
ghost use Rattle.test_objects.specs.declared.behaviour.Behaviour.{Behaviour as TheBehaviour};
ghost use Rattle.test_objects.specs.declared.behaviour.Behaviour.TheVariants as behaviours;
ghost use Rattle.named_runs.specs.NamedObjects.{IsOfBehaviour};

use seq_objects::Kind;
use test_objects::{Invent, Late, Lossy, Machine, Plain, Twice};

/// A machine that can be made for the sequential object of each kind.
pub(crate) trait NamedMachine: Machine + Drop + Sized {
    /// The behaviour of the log object whose calls the machine answers.
    ghost behaviour: { TheBehaviour };

    /// The machine for the object of this kind.
    fn for_kind(kind: Kind) -> Self
        ensures { (n : ℕ) (phases : ℕ → ℕ) (calls : ℕ → List Made)
            → IsLoggedBy (Self.reply_to result) n phases calls
            → IsOfBehaviour behaviour kind n phases calls };
}

impl NamedMachine for Plain<Kind> {
    ghost behaviour = { behaviours.Lawful };

    fn for_kind(object: Kind) -> Self {
        Plain { object }
    }
}

impl NamedMachine for Lossy<Kind> {
    ghost behaviour = { behaviours.Lossy };

    fn for_kind(object: Kind) -> Self {
        Lossy { object }
    }
}

impl NamedMachine for Twice<Kind> {
    ghost behaviour = { behaviours.Twice };

    fn for_kind(object: Kind) -> Self {
        Twice { object }
    }
}

impl NamedMachine for Late<Kind> {
    ghost behaviour = { behaviours.Late };

    fn for_kind(object: Kind) -> Self {
        Late { object }
    }
}

impl NamedMachine for Invent<Kind> {
    ghost behaviour = { behaviours.Invent };

    fn for_kind(object: Kind) -> Self {
        Invent { object }
    }
}
