ghost use Rattle.std.specs.Prelude.{◌≡◌, ◌<◌};
ghost use Rattle.row_table.specs.Callers.{local_with, IsCallerOf, IsFree};
ghost use Rattle.announced_calls.specs.Ends.{IsAnnouncedBy};

use book_base::OpWord;
use drv_wrapper::{Announced, announce};
use row_table::{Caller, Rows, Steps};
use std::marker::Brand;
use std::sync::ledger::{Blank, Ledger};
use world_core::{Outside, Program};

// Announces a call of a caller that is free and has a call left. The steps are counted by a counter
// that is made from `blank`.
fn announce_counted<L: Ledger>(rows: &Rows, caller: Caller, op: OpWord, blank: Blank) -> Announced
    requires blank { (blank.name ≡ L.name) × (blank.parts ≡ L.parts) × (0 < blank.parts) }
    requires rows { IsCallerOf ⟦<Outside as Program>⟧.meaning rows.now caller }
    requires free { IsFree caller }
    requires left { (local_with caller).announced < rows.now.cap }
    ensures { IsAnnouncedBy ⟦<Outside as Program>⟧.meaning rows.now caller op result }
{
    let mut steps = Steps::<L>::new(blank);
    announce(caller, rows, op, &mut steps)
}

/// Announces a call of a caller that is free and has a call left.
pub fn announce_alone(rows: &Rows, caller: Caller, op: OpWord) -> Announced
    // The caller belongs to `rows`.
    requires rows { IsCallerOf ⟦<Outside as Program>⟧.meaning rows.now caller }
    // The caller is between two calls.
    requires free { IsFree caller }
    // It has a call left.
    requires left { (local_with caller).announced < rows.now.cap }
    // The call is announced with this operation.
    ensures { IsAnnouncedBy ⟦<Outside as Program>⟧.meaning rows.now caller op result }
{
    announce_counted::<Brand>(rows, caller, op, Blank::new(1))
}
