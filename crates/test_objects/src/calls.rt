//! Puts and takes, and operations that a faulty machine leaves out.
ghost use Rattle.std.specs.Prelude.{◌≡◌, ◌<◌, if◌then◌else◌, length};
ghost use Rattle.test_objects.specs.Calls as calls;

use book_base::{GrowsByOne, OpWord, State, low};

/// Whether an operation is a put: its code is 1, whether or not an object knows the operation.
pub(crate) fn is_put(op: OpWord) -> bool
    ensures { result ≡ calls.is_put op }
{
    low(op) / (1 << 32) == 1
}

/// Whether an operation is a take: its code is 2, whether or not an object knows the operation.
pub(crate) fn is_take(op: OpWord) -> bool
    ensures { result ≡ calls.is_take op }
{
    low(op) / (1 << 32) == 2
}

/// Applies an operation to the state, unless it is left out.
pub(crate) fn make_unless<S: GrowsByOne>(left: bool, object: &S, state: &mut State, op: OpWord)
    requires { length state.old.words < state.old.room }
    ensures { state.new ≡ record state.old {
      words = if left then state.old.words else ((S.spec object.now).next state.old.words op).0;
    } }
{
    if !left {
        object.step(state, op);
    }
}
