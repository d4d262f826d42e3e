ghost use Rattle.std.specs.Prelude.{◌≡◌};
ghost use Rattle.row_table.specs.Callers.{local_with, stance_of};
ghost use Rattle.drv_wrapper.specs.Stands.{ready};
ghost use Rattle.enforcer.specs.Recorded.{HasSeen, HoldsOwn};

use book_base::{Cut, Record};
use row_table::Caller;
use world_core::Outside;

/// A call whose record is published, with its seen cut: a cut of the published records that its
/// caller has seen since.
///
/// The state has to be spent: by [`judge`](crate::judge), [`judge_seen`](crate::judge_seen),
/// by `defer`, or by `stop`.
pub struct Seen<P = Outside> {
    pub(crate) caller: Caller<P>,
    pub(crate) record: Record,
    pub(crate) cut: Cut,
    pub ghost saw: { HasSeen «record» cut (local_with caller) },
    pub ghost own: { HoldsOwn cut caller },
    pub ghost stands: { stance_of caller ≡ ready },
}

impl<P> Seen<P> {
    ghost use Rattle.drv_wrapper.specs.Stands.{IsSame, IsStopped};
    ghost use Rattle.enforcer.specs.States.{caller_seen, cut_seen, record_seen};

    /// The record of the call: its reply and its view.
    pub fn record(&self) -> Record
        ensures { result ≡ record_seen self.now }
    {
        self.record
    }

    /// The seen cut: how many records of each caller were published, all at one moment after this
    /// call's own record was.
    pub fn cut(&self) -> Cut
        ensures { result ≡ cut_seen self.now }
    {
        self.cut
    }

    /// The caller, live, with its local as it was: the call isn't judged.
    pub fn defer(self) -> Caller<P>
        // The caller that comes back is that of the seen call: it has the same number and the same
        // local, and belongs to the same rows.
        ensures caller { IsSame (caller_seen self) result }
        // The caller keeps its stance.
        ensures stance { stance_of result ≡ stance_of (caller_seen self) }
    {
        let Seen {
            caller: live,
            record: _,
            cut: _,
        } = self;
        live
    }

    /// The caller, halted, with its local as it was: the call isn't judged.
    pub fn stop(self) -> Caller<P>
        ensures { IsStopped (caller_seen self) result }
    {
        let Seen {
            caller,
            record: _,
            cut: _,
        } = self;
        caller.halt()
    }
}
