ghost use Rattle.std.specs.Prelude.{◌≡◌, ℕ, ◌+◌, ◌≤◌, length};
ghost use Rattle.row_table.specs.Callers.{local_with, MayGet, IsCallerOf, IsStill};
ghost use Rattle.report_lines.specs.Phases.{progress_of};
ghost use Rattle.report_lines.specs.Progress.{after_viewing};
ghost use Rattle.collect_scan.specs.Scanned.{most_words};
ghost use Rattle.drv_wrapper.specs.States.{caller_answered, op_answered, reply_answered, caller_viewed, op_viewed, answered_local, viewed_local, record_viewed};
ghost use Rattle.drv_wrapper.specs.Events.{HasViewed};
ghost use Rattle.drv_wrapper.specs.Growth.{Grows};

use crate::answered::Answered;
use crate::viewed::Viewed;
use book_base::Record;
use collect_scan::scan;
use row_table::{Rows, Steps};
use std::sync::ledger::Ledger;
use world_core::{Program, Region};

/// Takes the view of a call that the object has answered: the cut of a scan of N that begins with
/// the reply. So the view holds every call that was announced before the object had answered, the
/// caller's own among them, and none that is announced after the scan (Castañeda and Rodríguez
/// 2023).
///
/// The program has to allow the reply; a program of objects outside the world allows every reply.
/// The counter of steps rises by at most the steps of one scan.
pub fn view<P: Program, L: Ledger>(
    answered: Answered<P>,
    rows: &Rows<P>,
    steps: &mut Steps<L>,
) -> Viewed<P>
    // The caller belongs to this table.
    requires rows { IsCallerOf P.meaning rows.now (caller_answered answered) }
    // The program allows the caller the reply of the answered call, by its local.
    requires allowed { MayGet P.meaning (caller_answered answered) (reply_answered answered) }
    // The caller still belongs to this table, and keeps its number.
    ensures caller { IsStill P.meaning rows.now (caller_answered answered) (caller_viewed result) }
    // The viewed call has the operation and the reply of the answered one.
    ensures call { (op_viewed result ≡ op_answered answered)
        × ((record_viewed result).reply ≡ reply_answered answered) }
    // The view has one count for each caller.
    ensures wide { length (record_viewed result).view ≡ rows.now.callers }
    // The caller's local is the one before, changed by a scan of N that began with the reply and
    // gave the view, and by no other event.
    ensures viewed { HasViewed rows.now.callers (record_viewed result) (answered_local answered)
        (viewed_local result) }
    // The caller's last call has its record, of the reply and the view, and nothing else of its
    // progress changes.
    ensures progress { progress_of (viewed_local result)
        ≡ after_viewing (record_viewed result) (progress_of (answered_local answered)) }
    // The caller's local has each look, peek and cut that it had before.
    ensures grows { Grows (answered_local answered) (viewed_local result) }
    // The counter of steps has risen by at most n * (n + 1) + n for n callers.
    ensures ticks { (steps.old ≤ steps.new)
        × (steps.new ≤ steps.old + most_words rows.now.callers) }
{
    let Answered {
        mut caller,
        op,
        reply,
    } = answered;
    let view = scan(rows, &mut caller, Region::N, steps);
    Viewed {
        caller,
        op,
        record: Record { reply, view },
    }
}
