ghost use Rattle.std.specs.Prelude.{◌≡◌};
ghost use Rattle.row_table.specs.Callers.{local_with, stance_of};
ghost use Rattle.drv_wrapper.specs.Stands.{ready};
ghost use Rattle.drv_wrapper.specs.Calling.{IsRecorded};

use book_base::{Cut, OpWord, Record};
use row_table::Caller;
use world_core::Outside;

/// A call that has its record, of a reply and a view, and whose record isn't published yet.
///
/// The state has to be used up: by `into_caller`, with which the publication of the record begins,
/// or by `stop`.
pub struct Viewed<P = Outside> {
    pub(crate) caller: Caller<P>,
    pub(crate) op: OpWord,
    pub(crate) record: Record,
    pub ghost recorded: { IsRecorded op «record» (local_with caller) },
    pub ghost stands: { stance_of caller ≡ ready },
}

impl<P> Viewed<P> {
    ghost use Rattle.drv_wrapper.specs.States.{caller_viewed, record_viewed};
    ghost use Rattle.drv_wrapper.specs.Stands.{IsSame, IsStopped};
    ghost use Rattle.row_table.specs.Callers.{stance_of};

    /// The reply of the object to the call.
    pub fn reply(&self) -> u64
        ensures { result ≡ (record_viewed self.now).reply }
    {
        self.record.reply
    }

    /// The view: the cut of a scan of announcements that began after the object had answered.
    pub fn view(&self) -> Cut
        // The answer is the view of the call.
        ensures { result ≡ (record_viewed self.now).view }
    {
        self.record.view
    }

    /// The record of the call: its reply and its view.
    pub fn record(&self) -> Record
        ensures { result ≡ record_viewed self.now }
    {
        self.record
    }

    /// The call's caller, live, with its local as it is.
    pub fn into_caller(self) -> Caller<P>
        // The caller keeps its number and its local, and still belongs to its table.
        ensures caller { IsSame (caller_viewed self) result }
        // The caller's stance stays.
        ensures stance { stance_of result ≡ stance_of (caller_viewed self) }
    {
        let Viewed {
            caller,
            op: _,
            record: _,
        } = self;
        caller
    }

    /// The caller, halted, with its local as it is: the call's record is not published.
    pub fn stop(self) -> Caller<P>
        // The caller keeps its number and its local, makes no further calls, and still belongs to
        // its table.
        ensures { IsStopped (caller_viewed self) result }
    {
        let Viewed {
            caller,
            op: _,
            record: _,
        } = self;
        caller.halt()
    }
}
