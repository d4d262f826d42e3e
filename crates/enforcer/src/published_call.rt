ghost use Rattle.std.specs.Prelude.{◌≡◌};
ghost use Rattle.row_table.specs.Callers.{local_with, stance_of};
ghost use Rattle.drv_wrapper.specs.Stands.{ready};
ghost use Rattle.enforcer.specs.Recorded.{IsPublishing};

use book_base::Record;
use row_table::Caller;
use world_core::Outside;

/// A call whose record, a reply and a view, is published.
///
/// The state has to be spent: by [`seen`](crate::seen), or by `stop`.
pub struct Published<P = Outside> {
    pub(crate) caller: Caller<P>,
    pub(crate) record: Record,
    pub ghost publishing: { IsPublishing «record» (local_with caller) },
    pub ghost stands: { stance_of caller ≡ ready },
}

impl<P> Published<P> {
    ghost use Rattle.drv_wrapper.specs.Stands.{IsStopped};
    ghost use Rattle.enforcer.specs.States.{caller_published, record_published};

    /// The record of the call: its reply and its view.
    pub fn record(&self) -> Record
        ensures { result ≡ record_published self.now }
    {
        self.record
    }

    /// The caller, halted, with its local as it was: the record of the call stays published, and
    /// the call isn't judged.
    pub fn stop(self) -> Caller<P>
        ensures { IsStopped (caller_published self) result }
    {
        let Published { caller, record: _ } = self;
        caller.halt()
    }
}
