ghost use Rattle.std.specs.Prelude.{◌≡◌, ◌<◌, length, Some, slice_get};
ghost use Rattle.sketch.specs.Intervals.{StandsFrom};

use crate::Event;

/// The first place, from the place `from` on, at which an event stands in a list.
pub(crate) fn place_from(events: &[Event], from: usize, event: Event) -> usize
    requires { StandsFrom events.now from event }
    ensures stands { slice_get events.now result ≡ Some event }
    ensures within { result < length events.now }
{
    let mut place = from;
    while events[place] != event {
        place += 1;
    }
    place
}
