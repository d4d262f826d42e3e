ghost use Rattle.std.specs.Prelude.{◌≡◌, ◌<◌, List, ℕ};
ghost use Rattle.book_base.specs.declared.call.Record.{Record};
ghost use Rattle.row_table.specs.Callers.{IsCallerOf, IsFree};
ghost use Rattle.drv_wrapper.specs.States.{caller_announced};
ghost use Rattle.enforcer.specs.States.{caller_seen, cut_seen, record_seen};
ghost use Rattle.announced_calls.specs.Ends.{IsPublishedBy};

use drv_wrapper::{Announced, view};
use enforcer::{Seen, publish, seen};
use row_table::{Caller, Rows, Steps};
use std::marker::Brand;
use std::sync::ledger::{Blank, Ledger};
use world_core::{Outside, Program};

/// Brings an announced call whose reply is handed in to where it is to be judged: takes the view,
/// publishes the reply and the view, and sees a cut of the published records.
pub fn publish_reply<L: Ledger>(
    rows: &Rows,
    announced: Announced,
    reply: u64,
    steps: &mut Steps<L>,
) -> Seen
    // The call's caller belongs to `rows`.
    requires rows { IsCallerOf ⟦<Outside as Program>⟧.meaning rows.now
        (caller_announced announced) }
    // The call is published with this reply, and a cut is seen since.
    ensures published { IsPublishedBy ⟦<Outside as Program>⟧.meaning rows.now announced reply
        (caller_seen result) (record_seen result) (cut_seen result) }
{
    let answered = announced.answer(reply);
    let viewed = view(answered, rows, steps);
    let published = publish(viewed, rows, steps);
    seen(published, rows, steps)
}

// Publishes a call whose reply is handed in, and judges nothing. The steps are counted by a counter
// that is made from `blank`.
fn publish_counted<L: Ledger>(rows: &Rows, call: Announced, reply: u64, blank: Blank) -> Caller
    requires blank { (blank.name ≡ L.name) × (blank.parts ≡ L.parts) × (0 < blank.parts) }
    requires rows { IsCallerOf ⟦<Outside as Program>⟧.meaning rows.now (caller_announced call) }
    ensures published { (told : Record) × (seen : List ℕ)
        × IsPublishedBy ⟦<Outside as Program>⟧.meaning rows.now call reply result told seen }
    ensures free { IsFree result }
{
    let mut steps = Steps::<L>::new(blank);
    publish_reply(rows, call, reply, &mut steps).defer()
}

/// Publishes a call whose reply is handed in, and judges nothing. The answer is the call's caller,
/// which may make its next call.
pub fn publish_alone(rows: &Rows, call: Announced, reply: u64) -> Caller
    // The call's caller belongs to `rows`.
    requires rows { IsCallerOf ⟦<Outside as Program>⟧.meaning rows.now (caller_announced call) }
    // The call is published with this reply.
    ensures published { (told : Record) × (seen : List ℕ)
        × IsPublishedBy ⟦<Outside as Program>⟧.meaning rows.now call reply result told seen }
    // The caller is between two calls.
    ensures free { IsFree result }
{
    publish_counted::<Brand>(rows, call, reply, Blank::new(1))
}
