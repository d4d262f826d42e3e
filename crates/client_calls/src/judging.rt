ghost use Rattle.client_calls.specs.Ends.{SaysJudged};
ghost use Rattle.client_calls.specs.Staying.{judged_stays};

use crate::ended::Ended;
use crate::ending::Ending;
use enforcer::{CallVerdict, Gathered, Seen, judge_seen};
use frontier_check::KeptOrder;
use report_lines::LineEnd;
use row_table::{Rows, Steps};
use search_hints::SearchHints;
use std::alloc::Global;
use std::sync::ledger::Ledger;
use world_core::Program;

/// The ending that judges each call by a sequential object.
#[derive(Drop)]
pub struct Judging<'a, S> {
    pub alloc: Global,
    pub sequential: &'a S,
}

impl<S: SearchHints> Ending for Judging<'_, S> {
    ghost object = { λ judging. S.spec judging.sequential.now };

    ghost says = { SaysJudged };

    ghost stays = { judged_stays };

    fn end<P: Program, L: Ledger>(
        &mut self,
        rows: &Rows<P>,
        seen: Seen<P>,
        gathered: &mut Option<Gathered>,
        standing: &mut Option<KeptOrder>,
        steps: &mut Steps<L>,
    ) -> Ended<P> {
        let (record, cut) = (seen.record(), seen.cut());
        match judge_seen(
            self.alloc,
            self.sequential,
            rows,
            seen,
            gathered,
            standing,
            steps,
        ) {
            Ok((caller, CallVerdict::Delivered)) => {
                Ended::GoesOn(caller, LineEnd::Delivered(record, cut))
            }
            Ok((caller, CallVerdict::Illegal(_))) => {
                Ended::Halts(caller, LineEnd::Error(record, cut))
            }
            Err(seen) => Ended::WantsMemory(seen),
        }
    }

    fn another(&self) -> Self {
        Judging {
            alloc: self.alloc,
            sequential: self.sequential,
        }
    }
}
