use drv_wrapper::{Announced, Answered, Viewed};
use enforcer::{Published, Seen};
use report_lines::LineEnd;
use row_table::Caller;
use world_core::Outside;

/// The state of a caller between two of its phases.
pub enum CallerState<P = Outside> {
    /// The caller is between two calls.
    Idle(Caller<P>),
    /// The call under way is announced.
    Announced(Announced<P>),
    /// The object has answered the call under way.
    Answered(Answered<P>),
    /// The call under way has its view, and so its record.
    Viewed(Viewed<P>),
    /// The record of the call under way is published.
    Published(Published<P>),
    /// The caller is halted after an error.
    Halted(Caller<P>),
    /// The last call was left unjudged for want of memory. Its cut is seen, and the caller makes no
    /// further phase before the call is judged.
    Unjudged(Seen<P>),
}

impl<P> CallerState<P> {
    ghost use Rattle.std.specs.Prelude.{◌≡◌, ◌↔◌, IsTrue};
    ghost use Rattle.row_table.specs.Callers.{stance_of};
    ghost use Rattle.drv_wrapper.specs.Stands.{IsSame};
    ghost use Rattle.client_calls.specs.Stands.{caller_at, GoesOnFrom};
    ghost use Rattle.client_calls.specs.Finishing.{end_at, is_unjudged, stance_left};

    /// Whether the caller can make further phases: it isn't halted, and no call is left unjudged.
    pub fn goes_on(&self) -> bool
        ensures { IsTrue result ↔ GoesOnFrom self.now }
    {
        match self {
            CallerState::Halted(_) | CallerState::Unjudged(_) => false,
            _ => true,
        }
    }

    /// Whether the last call was left unjudged for want of memory.
    pub fn is_unjudged(&self) -> bool
        ensures { result ≡ is_unjudged self.now }
    {
        matches!(self, CallerState::Unjudged(_))
    }

    /// The caller, with its local as it is, and the end of the line of its call under way, where it
    /// leaves one. A caller with a call under way, or with an unjudged one, is halted, and any other
    /// keeps its stance.
    pub fn stop(self) -> (Caller<P>, Option<LineEnd>)
        // The caller keeps its number and its local, and still belongs to its rows.
        ensures caller { IsSame (caller_at self) result.0 }
        // The line of a call under way ends pending without the call's record, and unchecked with
        // it; between two calls, and where the caller is halted, no line is left.
        ensures end { result.1 ≡ end_at self }
        // The caller's stance stays between two calls and where the caller is halted already, and
        // else the caller is halted.
        ensures stance { stance_of result.0 ≡ stance_left self }
    {
        match self {
            CallerState::Idle(caller) | CallerState::Halted(caller) => (caller, None),
            CallerState::Announced(announced) => (announced.stop(), Some(LineEnd::Pending)),
            CallerState::Answered(answered) => (answered.stop(), Some(LineEnd::Pending)),
            CallerState::Viewed(viewed) => {
                let record = viewed.record();
                (viewed.stop(), Some(LineEnd::Unchecked(record)))
            }
            CallerState::Published(published) => {
                let record = published.record();
                (published.stop(), Some(LineEnd::Unchecked(record)))
            }
            CallerState::Unjudged(seen) => (seen.stop(), None),
        }
    }
}
