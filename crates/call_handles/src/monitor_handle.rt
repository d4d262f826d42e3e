ghost use Rattle.std.specs.Prelude.{◌≡◌, ◌↔◌, None, IsSome, IfSome, IfNone, IfOk, is_some};
ghost use Rattle.std.specs.Arc.{arc_value};
ghost use Rattle.row_table.specs.Callers.{IsCallerOf, IsFree};

use crate::rounds::round_alone;
use crate::verdict::HandleVerdict;
use book_base::NoMemory;
use book_text::write_book;
use frontier_check::KeptOrder;
use monitor::{Board, Monitor};
use row_table::{Caller, Rows};
use seq_objects::Kind;
use std::alloc::Global;
use std::sync::Arc;

/// A caller of a table that makes no calls, with all that its rounds need: it judges what the
/// others have published.
///
/// It makes rounds by [`judge`](MonitorHandle::judge) until one is illegal. Then it has the book of
/// that round as its witness, and makes no further round.
#[derive(Drop)]
pub struct MonitorHandle {
    pub(crate) rows: Arc<Rows, Global>,
    pub(crate) kind: Kind,
    pub(crate) board: Board,
    pub(crate) monitor: Monitor,
    pub(crate) standing: Option<KeptOrder>,
}

impl MonitorHandle {
    ghost use Rattle.monitor.specs.Monitors.{caller_of, own_of};
    ghost use Rattle.announced_calls.specs.Outside.{every_reply};
    ghost use Rattle.call_handles.specs.Monitors.{rows_watched, kind_watched, monitor_in, IsSoundMonitor, IsOfSameWatch, MayJudge, HasFoundWrong, HasJudged, IsFoundWitness};

    /// Makes `caller`, a caller of the table `rows` that is between two calls, a monitor, and gives
    /// its handle. The monitor judges by `kind`, and has made no round. No memory is taken.
    pub fn new(alloc: Global, rows: Arc<Rows, Global>, kind: Kind, caller: Caller) -> MonitorHandle
        // The caller belongs to `rows`.
        requires caller { IsCallerOf every_reply (arc_value rows) caller }
        // The caller is between two calls.
        requires free { IsFree caller }
        // The handle is sound: its monitor, board and kept order fit one another.
        ensures sound { IsSoundMonitor result }
        // The handle's table is `rows`, and its monitor judges by `kind`.
        ensures table { (rows_watched result ≡ arc_value rows) × (kind_watched result ≡ kind) }
        // The handle's monitor is `caller`.
        ensures caller { caller_of (monitor_in result) ≡ caller }
        // The handle's monitor has no witness.
        ensures nothing { own_of (monitor_in result) ≡ None }
    {
        let board = Board::new(alloc);
        let monitor = Monitor::new(caller, &board);
        MonitorHandle {
            rows,
            kind,
            board,
            monitor,
            standing: None,
        }
    }

    // Whether a round of the monitor was illegal.
    fn has_found(&self) -> bool
        ensures { result ≡ is_some (own_of (monitor_in self.now)) }
    {
        match self.monitor.own() {
            Some(_) => true,
            None => false,
        }
    }

    /// Makes a round, where no earlier one was illegal: scans M, and judges the book at the scan's
    /// cut. After an illegal round there is no answer, and the handle is as it was. After a round
    /// that lacked memory the monitor may make a further one.
    pub fn judge(self, alloc: Global) -> (MonitorHandle, Option<HandleVerdict>)
        // The handle is sound: its monitor, board and kept order fit one another.
        requires sound { IsSoundMonitor self }
        // The handle that comes back is sound: its monitor, board and kept order fit one another.
        ensures sound { IsSoundMonitor result.0 }
        // The handle that comes back is of this handle's table and kind.
        ensures same { IsOfSameWatch self result.0 }
        // There is an answer exactly where the monitor has made no illegal round.
        ensures when { IsSome result.1 ↔ MayJudge self }
        // With an answer the monitor has made a round. The book at the round's cut has a legal
        // order where the answer is `Legal`, and none where it is `Illegal`. Where the answer is
        // `Unjudged`, the monitor has scanned M, and has no witness.
        ensures judged { IfSome result.1 (λ found. HasJudged self found result.0) }
        // Without an answer the handle is as it was.
        ensures unchanged { IfNone result.1 (result.0 ≡ self) }
    {
        if self.has_found() {
            return (self, None);
        }
        let mut handle = self;
        let found = round_alone(alloc, &mut handle);
        (handle, Some(found))
    }

    /// Where a round was illegal, the text of its book, which has no legal order.
    pub fn witness(&self, alloc: Global) -> Result<Option<Vec<u8>>, NoMemory>
        // The handle is sound: its monitor, board and kept order fit one another.
        requires sound { IsSoundMonitor self.now }
        // There is a text exactly where the monitor has made an illegal round.
        ensures when { IfOk result (λ found. IsSome found ↔ HasFoundWrong self.now) }
        // The text is that of the book of the illegal round, which has no legal order.
        ensures text { IfOk result
            (λ found. IfSome found (λ text. IsFoundWitness self.now text.items)) }
    {
        match self.monitor.own() {
            Some(witness) => Ok(Some(write_book(alloc, self.kind, &witness.book)?)),
            None => Ok(None),
        }
    }
}
