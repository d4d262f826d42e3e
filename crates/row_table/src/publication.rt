ghost use Rattle.std.specs.Prelude.{◌≡◌};
ghost use Rattle.world_core.specs.Event as event;
ghost use Rattle.row_table.specs.Callers.{local_with, stance_of, IsCallerOf, IsStill, HasDone};
ghost use Rattle.row_table.specs.Staging.{MayPublish};

use crate::caller::Caller;
use crate::rows::Rows;
use crate::staged_words::stage_from;
use book_base::Cut;
use world_core::{Program, Region};

/// Publishes the record of the caller's last call: stages the caller's row of M, with the reply,
/// the entries of the view and those of the cut that the row embeds, and raises the caller's count
/// in M.
///
/// The cut is the one that the caller's last scan of M gave it for this row. The call makes no look
/// and no peek.
pub fn publish_row<P: Program>(
    rows: &Rows<P>,
    caller: &mut Caller<P>,
    reply: u64,
    view: &Cut,
    cut: &Cut,
)
    // The caller belongs to this table.
    requires caller { IsCallerOf P.meaning rows.now caller.old }
    // The caller may publish the record of its last call, with this reply and this view, in a row
    // that embeds this cut.
    requires may { MayPublish rows.now.callers reply view.now cut.now (local_with caller.old) }
    // The caller still belongs to this table, and keeps its number.
    ensures caller { IsStill P.meaning rows.now caller.old caller.new }
    // The caller's local is the one before, changed by the publication of its record.
    ensures published { HasDone rows.now caller.old caller.new event.Publish }
    // The caller's stance stays.
    ensures stance { stance_of caller.new ≡ stance_of caller.old }
{
    rows.stage(caller, Region::M, 0, reply);
    stage_from(rows, caller, Region::M, 1, view.counts());
    stage_from(rows, caller, Region::M, 1 + view.n(), cut.counts());
    rows.publish(caller);
}
