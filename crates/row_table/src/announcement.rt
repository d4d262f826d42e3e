ghost use Rattle.std.specs.Prelude.{◌≡◌};
ghost use Rattle.row_table.specs.Callers.{local_with, stance_of, IsCallerOf, IsStill};
ghost use Rattle.row_table.specs.Staging.{local_announced, MayAnnounce};

use crate::caller::Caller;
use crate::rows::Rows;
use crate::staged_words::stage_from;
use book_base::{Cut, OpWord, high, low};
use world_core::{Program, Region};

/// Announces a call of this operation: stages the caller's row of N, with the two words of the
/// operation and the entries of the cut that the row embeds, and raises the caller's count in N.
///
/// The cut is the one that the caller's last scan of N gave it for this row. The call makes no look
/// and no peek.
pub fn announce_row<P: Program>(rows: &Rows<P>, caller: &mut Caller<P>, op: OpWord, cut: &Cut)
    // The caller belongs to this table.
    requires caller { IsCallerOf P.meaning rows.now caller.old }
    // The caller may announce a call in a row that embeds this cut.
    requires may { MayAnnounce rows.now.callers rows.now.cap cut.now (local_with caller.old) }
    // The caller still belongs to this table, and keeps its number.
    ensures caller { IsStill P.meaning rows.now caller.old caller.new }
    // The caller's local is the one before, changed by the announcement of a call with this
    // operation.
    ensures announced { local_with caller.new
        ≡ local_announced rows.now.callers op (local_with caller.old) }
    // The caller's stance stays.
    ensures stance { stance_of caller.new ≡ stance_of caller.old }
{
    rows.stage(caller, Region::N, 0, low(op));
    rows.stage(caller, Region::N, 1, high(op));
    stage_from(rows, caller, Region::N, 2, cut.counts());
    rows.announce(caller);
}
