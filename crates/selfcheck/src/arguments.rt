//! The arguments of commands.

ghost use Rattle.std.specs.Prelude.{◌≡◌};
ghost use Rattle.selfcheck.specs.Arguments.{behaviour_named, soak_number};

use seq_objects::number;
use test_objects::Behaviour;

/// The greatest number that a soak can have.
const MOST: u64 = 4_294_967_295;

/// The behaviour with this name.
pub(crate) fn behaviour_named(name: &str) -> Option<Behaviour>
    ensures { result ≡ behaviour_named name.now }
{
    Behaviour::from_name(name.as_bytes())
}

/// The number of a soak that this word spells, where it spells one.
pub(crate) fn soak_number(word: &str) -> Option<u64>
    ensures { result ≡ soak_number word.now }
{
    let spelled = number(word.as_bytes())?;
    if spelled <= MOST { Some(spelled) } else { None }
}
