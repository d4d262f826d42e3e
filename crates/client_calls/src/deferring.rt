ghost use Rattle.client_calls.specs.Ends.{silent, SaysDeferred};
ghost use Rattle.client_calls.specs.Staying.{deferred_stays};

use crate::ended::Ended;
use crate::ending::Ending;
use enforcer::{Gathered, Seen};
use frontier_check::KeptOrder;
use report_lines::LineEnd;
use row_table::{Rows, Steps};
use std::sync::ledger::Ledger;
use world_core::Program;

/// The ending that judges no call: each line is unchecked, with the record of its call, and its
/// caller is free for the next call.
#[derive(Debug, Drop)]
pub struct Deferring;

impl Ending for Deferring {
    ghost object = { λ deferring. silent };

    ghost says = { SaysDeferred };

    ghost stays = { deferred_stays };

    fn end<P: Program, L: Ledger>(
        &mut self,
        _rows: &Rows<P>,
        seen: Seen<P>,
        _gathered: &mut Option<Gathered>,
        _standing: &mut Option<KeptOrder>,
        _steps: &mut Steps<L>,
    ) -> Ended<P> {
        let record = seen.record();
        Ended::GoesOn(seen.defer(), LineEnd::Unchecked(record))
    }

    fn another(&self) -> Self {
        Deferring
    }
}
