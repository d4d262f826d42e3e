ghost use Rattle.std.specs.Prelude.{◌≡◌, ℕ, List};
ghost use Rattle.book_base.specs.declared.call.Record.{Record};
ghost use Rattle.book_base.specs.SeqSpec.{SeqSpec};
ghost use Rattle.world_core.specs.Local.{Local};
ghost use Rattle.report_lines.specs.declared.line.LineEnd.{LineEnd};
ghost use Rattle.report_lines.specs.Phases.{progress_of};
ghost use Rattle.row_table.specs.Callers.{local_with, IsCallerOf, IsStill};
ghost use Rattle.row_gather.specs.Gathered.{IsGatheredBy};
ghost use Rattle.drv_wrapper.specs.Growth.{Grows};
ghost use Rattle.enforcer.specs.States.{caller_seen, cut_seen, record_seen};
ghost use Rattle.client_calls.specs.Endings.{caller_ended, local_ended, StandsAfter, FitsError, SaysOf};
ghost use Rattle.enforcer.specs.Verdicts.{OrderStandsIn};

use crate::ended::Ended;
use enforcer::{Gathered, Seen};
use frontier_check::KeptOrder;
use row_table::{Rows, Steps};
use std::sync::ledger::Ledger;
use world_core::Program;

/// How the calls of a client end, once a cut was seen for them: with a judgement, or without one.
pub trait Ending {
    /// The sequential object that the ending judges by, where it judges.
    ghost object: { Self → SeqSpec };

    /// What the end of a line says, by the sequential object, the number of callers, the local of
    /// the call's caller, and the record and the seen cut of the call.
    ghost says: { SeqSpec → ℕ → Local → Record → List ℕ → LineEnd → Type 0 };

    /// Ends a call for which a cut was seen. The caller's progress stays. The caller is halted
    /// after an error. Where memory is lacking, the seen call is given back.
    ///
    /// `gathered` is the book that the caller gathered last, and `standing` an order with the marks
    /// that stand in this book; each may be `None`. Afterwards they are what is kept for the
    /// caller's next call.
    fn end<P: Program, L: Ledger>(
        &mut self,
        rows: &Rows<P>,
        seen: Seen<P>,
        gathered: &mut Option<Gathered>,
        standing: &mut Option<KeptOrder>,
        steps: &mut Steps<L>,
    ) -> Ended<P>
        // The caller of the seen call belongs to `rows`.
        requires rows { IsCallerOf P.meaning rows.now (caller_seen seen) }
        // The caller has peeked each word of the kept book, where one is kept.
        requires gathered { IsGatheredBy (local_with (caller_seen seen)) gathered.old }
        // Where both are kept, the kept order stands in the kept book, judged by the ending's
        // object.
        requires standing { OrderStandsIn (object self.old) gathered.old standing.old }
        // The sequential object of the ending stays.
        ensures object { object self.new ≡ object self.old }
        // The caller still belongs to `rows`, with the same number.
        ensures caller { IsStill P.meaning rows.now (caller_seen seen) (caller_ended result) }
        // The caller's progress is as before.
        ensures progress { progress_of (local_ended result)
            ≡ progress_of (local_with (caller_seen seen)) }
        // The caller's local has each look, peek and cut that it had before.
        ensures grows { Grows (local_with (caller_seen seen)) (local_ended result) }
        // The caller is free for its next call after a call that is no error, and halted after an
        // error.
        ensures stands { StandsAfter result }
        // The end of the line is an error where the call halts its caller, and is no error where
        // the caller is free for its next call. A call that is left unjudged has no line.
        ensures error { FitsError result }
        // The end of the line is as `says` has it for the record and the seen cut of the call.
        // Where memory was lacking, the seen call that is given back has the same record and cut.
        ensures says { SaysOf (says (object self.new) rows.now.callers) (record_seen seen)
            (cut_seen seen) result }
        // The caller has peeked each word of the book that is kept afterwards, where one is kept.
        ensures kept { IsGatheredBy (local_ended result) gathered.new }
        // The order that is kept afterwards stands in the book that is kept then, judged by the
        // ending's object.
        ensures standing { OrderStandsIn (object self.new) gathered.new standing.new };

    /// An ending of this kind for another caller.
    fn another(&self) -> Self
        // The answered ending judges by the same sequential object.
        ensures { object result ≡ object self.now };

    /// What the end of a line says stays true as the caller makes further steps.
    ghost stays: { (o : SeqSpec) (n : ℕ) (l m : Local) (r : Record) (cut : List ℕ) (end : LineEnd)
        → Grows l m → says o n l r cut end → says o n m r cut end };
}
