//! Laws of descriptions that keep no order among a container's items. Each is the contract of a
//! function with nothing in it.

ghost use Rattle.pool_residue.specs.Laws.{CallsStay, TakesAreSound, OptionalCallsAreSound, PlacedCallsLeadOn, PutsReturn};

/// Descriptions stay where a call comes: an open put needs none of its own, since each description
/// means the configurations in which it stands anywhere in the list.
pub fn calls_need_no_description()
    // The descriptions of a stream are those of the stream with one more call.
    ensures { CallsStay }
{}

/// What is made of a description means only what legal orders reach.
pub fn steps_are_sound()
    // So it is after a take is placed that shows a value: of the held items that may be first the
    // one that returned first is taken, and only where there is none one of an open put.
    ensures takes { TakesAreSound }
    // So it is with an optional call more: a take that finds nothing where no item is held, and a
    // call that the container doesn't know.
    ensures optional { OptionalCallsAreSound }
{}

/// Few takes need be placed before a call returns: of a queue those whose items must stand before
/// one of the value that is shown, as long as no take may find nothing.
pub fn needed_takes_suffice()
    // Calls that are placed one after another lead to configurations to which further takes lead
    // from what a description means.
    ensures { PlacedCallsLeadOn }
{}

/// A put that returns was taken where an item of its value was taken of an open put that may have
/// been this one, and else its item is held.
pub fn puts_return()
    // The description after the return means exactly what the return leaves of what the description
    // before it means.
    ensures { PutsReturn }
{}
