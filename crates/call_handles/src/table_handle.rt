ghost use Rattle.std.specs.Prelude.{◌≡◌, ◌+◌, ◌<◌, ◌≤◌, ◌↔◌, IsNone, IfSome, IfNone, IfOk, IfErr};
ghost use Rattle.book_base.specs.declared.TheConstants.{MAX_CALLERS, MAX_CALLS};
ghost use Rattle.world_core.specs.Local.{fresh};
ghost use Rattle.row_table.specs.Callers.{who_of, local_with, stance_of, IsCallerOf, IsFree};
ghost use Rattle.drv_wrapper.specs.Stands.{ready};

use crate::caller_handle::CallerHandle;
use crate::monitor_handle::MonitorHandle;
use book_base::{MAX_CALLERS, MAX_CALLS, NoMemory};
use model_callers::ModelCaller;
use row_table::{Bench, Caller, Rows};
use seq_objects::Kind;
use std::alloc::Global;
use std::sync::Arc;
use world_core::Outside;

/// A table, which gives the handles of its callers one by one, each to make calls or as a monitor.
/// All of them judge by one kind, but for those whose calls a model judges.
///
/// The table's memory is freed when its own handle and all handles that it gave are dropped.
#[derive(Drop)]
pub struct TableHandle {
    pub(crate) rows: Arc<Rows, Global>,
    pub(crate) kind: Kind,
    pub(crate) bench: Bench,
    pub(crate) next: u32,
}

impl TableHandle {
    ghost use Rattle.announced_calls.specs.Outside.{every_reply};
    ghost use Rattle.call_handles.specs.Callers.{IsSoundCaller};
    ghost use Rattle.call_handles.specs.Monitors.{IsSoundMonitor};
    ghost use Rattle.call_handles.specs.Tables.{rows_in, kind_in, next_of, IsSoundTable, GivesNext, IsFreshOf, IsFreshMonitorOf};
    ghost use Rattle.model_callers.specs.Callers as modelled;

    /// Opens a table for `callers` callers with at most `calls` calls each, which are judged by
    /// `kind`.
    pub fn open(
        alloc: Global,
        kind: Kind,
        callers: u32,
        calls: u64,
    ) -> Result<TableHandle, NoMemory>
        // There is at least one caller.
        requires some_callers { 1 ≤ callers }
        // There are at most 16 callers.
        requires few_callers { callers ≤ MAX_CALLERS }
        // Each caller has at least one call.
        requires some_calls { 1 ≤ calls }
        // Each caller has at most 256 calls.
        requires few_calls { calls ≤ MAX_CALLS }
        // The handle is sound: its parts fit one another.
        ensures sound { IfOk result IsSoundTable }
        // The table has `callers` callers, with at most `calls` calls each.
        ensures sized { IfOk result (λ t.
            ((rows_in t).callers ≡ callers) × ((rows_in t).cap ≡ calls)) }
        // The table judges by this kind.
        ensures kind { IfOk result (λ t. kind_in t ≡ kind) }
        // The table gives its first caller next.
        ensures first { IfOk result (λ t. next_of t ≡ 0) }
    {
        let (rows, bench) = Rows::open(alloc, Outside, callers, calls)?;
        let rows = Arc::new(alloc, rows)?;
        Ok(TableHandle {
            rows,
            kind,
            bench,
            next: 0,
        })
    }

    /// The handle of the table's next caller, or `None` where the table has given all its callers.
    /// Where memory is lacking, the table is as it was.
    pub fn caller(&mut self) -> Result<Option<CallerHandle>, NoMemory>
        // The table is sound: its bench holds each caller that wasn't given, unused.
        requires sound { IsSoundTable self.old }
        // The table is still sound: its bench holds each caller that wasn't given, unused.
        ensures sound { IsSoundTable self.new }
        // There is no handle exactly where the table has given all its callers.
        ensures when { IfOk result
            (λ found. IsNone found ↔ (next_of self.old ≡ (rows_in self.old).callers)) }
        // The handle is of the table's next caller, which has made no call.
        ensures given { IfOk result
            (λ found. IfSome found (IsFreshOf self.old (next_of self.old))) }
        // The handle is sound: its parts fit one another.
        ensures given_sound { IfOk result (λ found. IfSome found IsSoundCaller) }
        // Where a handle is answered, the table has its rows and its kind as before, and the number
        // of the caller that it gives next is one more.
        ensures next { IfOk result (λ found. IfSome found (λ _.
            GivesNext (next_of self.old + 1) self.old self.new)) }
        // Without a handle the table's handle is as it was.
        ensures none { IfOk result (λ found. IfNone found (self.new ≡ self.old)) }
        // After want of memory the table is as it was.
        ensures unchanged { IfErr result (λ _. self.new ≡ self.old) }
    {
        if self.next == self.rows.callers() {
            return Ok(None);
        }
        let rows = Arc::try_clone(&self.rows)?;
        let caller = self.take_next();
        Ok(Some(CallerHandle::new(rows, self.kind, caller)))
    }

    /// The handle of the table's next caller as a monitor, or `None` where the table has given all
    /// its callers. Where memory is lacking, the table is as it was.
    pub fn monitor(&mut self, alloc: Global) -> Result<Option<MonitorHandle>, NoMemory>
        // The table is sound: its bench holds each caller that wasn't given, unused.
        requires sound { IsSoundTable self.old }
        // The table is still sound: its bench holds each caller that wasn't given, unused.
        ensures sound { IsSoundTable self.new }
        // There is no handle exactly where the table has given all its callers.
        ensures when { IfOk result
            (λ found. IsNone found ↔ (next_of self.old ≡ (rows_in self.old).callers)) }
        // The handle is of the table's next caller as a monitor, which has made no round.
        ensures given { IfOk result
            (λ found. IfSome found (IsFreshMonitorOf self.old (next_of self.old))) }
        // The handle is sound: its parts fit one another.
        ensures given_sound { IfOk result (λ found. IfSome found IsSoundMonitor) }
        // Where a handle is answered, the table has its rows and its kind as before, and the number
        // of the caller that it gives next is one more.
        ensures next { IfOk result (λ found. IfSome found (λ _.
            GivesNext (next_of self.old + 1) self.old self.new)) }
        // Without a handle the table's handle is as it was.
        ensures none { IfOk result (λ found. IfNone found (self.new ≡ self.old)) }
        // After want of memory the table is as it was.
        ensures unchanged { IfErr result (λ _. self.new ≡ self.old) }
    {
        if self.next == self.rows.callers() {
            return Ok(None);
        }
        let rows = Arc::try_clone(&self.rows)?;
        let caller = self.take_next();
        Ok(Some(MonitorHandle::new(alloc, rows, self.kind, caller)))
    }

    /// The table's next caller as one whose calls a model judges, or `None` where the table has given
    /// all its callers. Where memory is lacking, the table is as it was.
    pub fn modelled(&mut self, alloc: Global) -> Result<Option<ModelCaller>, NoMemory>
        // The table is sound: its bench holds each caller that wasn't given, unused.
        requires sound { IsSoundTable self.old }
        // The table is still sound: its bench holds each caller that wasn't given, unused.
        ensures sound { IsSoundTable self.new }
        // There is no caller exactly where the table has given all its callers.
        ensures when { IfOk result
            (λ found. IsNone found ↔ (next_of self.old ≡ (rows_in self.old).callers)) }
        // It is the table's next caller, which has made no call, and to which nothing was told.
        ensures given { IfOk result (λ found. IfSome found
            (modelled.IsFreshCaller (rows_in self.old) (next_of self.old))) }
        // It is sound: its parts fit one another.
        ensures given_sound { IfOk result (λ found. IfSome found modelled.IsSoundCaller) }
        // Where a caller is answered, the table has its rows and its kind as before, and the number
        // of the caller that it gives next is one more.
        ensures next { IfOk result (λ found. IfSome found (λ _.
            GivesNext (next_of self.old + 1) self.old self.new)) }
        // Without a caller the table's handle is as it was.
        ensures none { IfOk result (λ found. IfNone found (self.new ≡ self.old)) }
        // After want of memory the table is as it was.
        ensures unchanged { IfErr result (λ _. self.new ≡ self.old) }
    {
        if self.next == self.rows.callers() {
            return Ok(None);
        }
        let rows = Arc::try_clone(&self.rows)?;
        let caller = self.take_next();
        Ok(Some(ModelCaller::new(alloc, rows, caller)))
    }

    // Takes the next caller of the table off its bench.
    fn take_next(&mut self) -> Caller
        requires sound { IsSoundTable self.old }
        requires left { next_of self.old < (rows_in self.old).callers }
        ensures sound { IsSoundTable self.new }
        ensures next { GivesNext (next_of self.old + 1) self.old self.new }
        ensures caller { IsCallerOf every_reply (rows_in self.old) result }
        ensures who { who_of result ≡ next_of self.old }
        ensures fresh { (local_with result ≡ fresh) × (stance_of result ≡ ready) }
        ensures free { IsFree result }
    {
        let caller = self.rows.part(&mut self.bench, self.next);
        self.next += 1;
        caller
    }
}
