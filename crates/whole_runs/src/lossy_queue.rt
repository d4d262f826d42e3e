ghost use Rattle.std.specs.Prelude.{◌≡◌};
ghost use Rattle.row_table.specs.Callers.{who_of};
ghost use Rattle.monitor.specs.Monitors.{IsResting};
ghost use Rattle.std.proofs.lemmas.Option.{none-some};

use book_base::OpWord;
use drv_wrapper::{Announced, BlackBox, ObjectPass, apply};
use enforcer::{publish, seen};
use row_table::{Caller, Rows, Steps};
use seq_objects::{DONE, NONE, wrapping_value_reply};
use std::sync::ledger::Ledger;
use world_core::{Outside, Program};

const ENQUEUE_1: OpWord = 4294967297;

const ENQUEUE_2: OpWord = 4294967298;

pub const DEQUEUE: OpWord = 8589934592;

// A queue that loses the second item that is put into it.
#[derive(Drop)]
struct LossyQueue;

/// What the one caller of the lossy queue holds.
#[derive(Drop)]
pub struct LossyPass {
    pub caller: u32,
    pub made: u64,
    pub cap: u64,
}

impl ObjectPass for LossyPass {
    ghost caller = { λ pass. pass.caller };

    ghost made = { λ pass. pass.made };

    ghost cap = { λ pass. pass.cap };

    fn caller(&self) -> u32 {
        self.caller
    }

    fn made(&self) -> u64 {
        self.made
    }

    fn cap(&self) -> u64 {
        self.cap
    }
}

impl BlackBox for LossyQueue {
    type Pass = LossyPass;

    ghost tells_each = { λ queue pass pairs own told. absurd (none-some pairs told) };

    fn call(&self, pass: &mut LossyPass, _announced: &Announced) -> u64 {
        pass.made += 1;
        match pass.made {
            1 | 2 => DONE,
            3 => wrapping_value_reply(1),
            _ => NONE,
        }
    }
}

/// Makes a call of caller 0 that nobody judges, where the caller has one left.
pub fn call<L: Ledger>(
    rows: &Rows,
    caller: Caller,
    op: OpWord,
    pass: &mut LossyPass,
    steps: &mut Steps<L>,
) -> Caller
    requires caller { IsResting ⟦<Outside as Program>⟧.meaning rows.now caller
        × (who_of caller ≡ 0) }
    requires pass { pass.old.caller ≡ 0 }
    ensures caller { IsResting ⟦<Outside as Program>⟧.meaning rows.now result
        × (who_of result ≡ 0) }
    ensures pass { pass.new.caller ≡ 0 }
{
    if caller.left() == 0 || pass.made >= pass.cap {
        return caller;
    }
    let viewed = apply(caller, rows, op, &LossyQueue, pass, steps);
    let published = publish(viewed, rows, steps);
    seen(published, rows, steps).defer()
}

/// Lets caller 0 enqueue 1 and 2, and dequeue twice, as far as its pass has calls left: the second
/// dequeue finds nothing.
pub fn lose_an_item<L: Ledger>(
    rows: &Rows,
    caller: Caller,
    pass: &mut LossyPass,
    steps: &mut Steps<L>,
) -> Caller
    requires caller { IsResting ⟦<Outside as Program>⟧.meaning rows.now caller
        × (who_of caller ≡ 0) }
    requires pass { pass.old.caller ≡ 0 }
    ensures caller { IsResting ⟦<Outside as Program>⟧.meaning rows.now result
        × (who_of result ≡ 0) }
    ensures pass { pass.new.caller ≡ 0 }
{
    let caller = call(rows, caller, ENQUEUE_1, pass, steps);
    let caller = call(rows, caller, ENQUEUE_2, pass, steps);
    let caller = call(rows, caller, DEQUEUE, pass, steps);
    call(rows, caller, DEQUEUE, pass, steps)
}
