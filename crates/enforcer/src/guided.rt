ghost use Rattle.std.specs.Prelude.{◌≡◌, ◌+◌, ◌≤◌, false, [], None, Some, IsSome, IfOk, IfErr, IfSome};
ghost use Rattle.world_core.specs.Local.{IsIdle};
ghost use Rattle.row_table.specs.Callers.{local_with, stance_of, IsCallerOf, IsStill};
ghost use Rattle.row_gather.specs.Peeks.{OnlyPeeks};
ghost use Rattle.row_gather.specs.Gathered.{IsGatheredBy};
ghost use Rattle.drv_wrapper.specs.Stands.{ready};
ghost use Rattle.enforcer.specs.Recorded.{HoldsOwn};
ghost use Rattle.enforcer.specs.States.{caller_seen, cut_seen, record_seen};
ghost use Rattle.enforcer.specs.Judged.{record_in, cut_in, stance_after, IsRightByPeeks, IsRightOf};
ghost use Rattle.enforcer.specs.Kept.{IsKeptAfterOutcome, TicksForNewAfter};
ghost use Rattle.enforcer.specs.Verdicts.{outcome_of};

use crate::call_verdict::CallVerdict;
use crate::judging::{halted, judge_seen};
use crate::outcome::{Outcome, Unjudged};
use crate::seen_call::Seen;
use book_base::{Cut, Record};
use frontier_check::{Guide, KeptOrder};
use row_gather::Gathered;
use row_table::{Caller, Rows, Steps};
use search_hints::SearchHints;
use std::alloc::Global;
use std::sync::ledger::Ledger;
use world_core::Program;

// The guide's places as a kept order without marks; none where memory for them is lacking.
fn kept_places(alloc: Global, guide: &Guide) -> Option<KeptOrder>
    ensures { IfSome result (λ kept. kept.marks.items ≡ []) }
{
    match Vec::from_slice(alloc, guide.places()) {
        Ok(order) => Some(KeptOrder {
            order,
            marks: Vec::new(alloc),
        }),
        Err(_) => None,
    }
}

// The outcome of a call with the record `told` and this seen cut, of its verdict and the order that
// is kept after it. The guide keeps this order too, where memory for it suffices.
fn outcome_with(
    alloc: Global,
    told: Record,
    seen: Cut,
    verdict: CallVerdict,
    standing: Option<KeptOrder>,
    guide: &mut Guide,
) -> Outcome
    requires { IsSome (outcome_of told seen verdict standing) }
    ensures { outcome_of told seen verdict standing ≡ Some result }
{
    let Record { reply, view } = told;
    match verdict {
        CallVerdict::Delivered => {
            let Some(KeptOrder { order, marks: _ }) = standing else {
                unreachable!()
            };
            // Every guide is good: where memory is lacking, it keeps the order that it had.
            let _kept = guide.keep(alloc, &order);
            Outcome::Delivered {
                reply,
                view,
                seen,
                order,
            }
        }
        CallVerdict::Illegal(book) => Outcome::Illegal {
            reply,
            view,
            seen,
            book,
        },
    }
}

/// Judges a call by the book at its seen cut: delivers the reply with a legal order of the book
/// where the book has one, and otherwise returns the error with that book (Castañeda and Rodríguez
/// 2023).
///
/// After `Delivered` the caller is live and idle, and after `Illegal` it is halted. `Unjudged`
/// comes for want of memory alone. The guide keeps the last order that was found; it costs or saves
/// time, and never changes a verdict.
///
/// `gathered` is the book that this caller has gathered before, or `None`. Where the seen cut
/// contains the cut of that book, as each later seen cut of the same caller does, the new book
/// grows from it, and only the words that it lacks are peeked. After `Delivered` `gathered` is the
/// book that was judged, for the caller's next call; after `Illegal`, which carries its book, and
/// after `Unjudged` it is `None`.
pub fn judge<P: Program, S: SearchHints, L: Ledger>(
    alloc: Global,
    object: &S,
    rows: &Rows<P>,
    seen: Seen<P>,
    gathered: &mut Option<Gathered>,
    guide: &mut Guide,
    steps: &mut Steps<L>,
) -> Result<(Caller<P>, Outcome), Unjudged<P>>
    // The caller of the seen call belongs to these rows.
    requires rows { IsCallerOf P.meaning rows.now (caller_seen seen) }
    // Where a book is kept, the caller has gathered it at the cut that is kept with it, by peeking
    // each of its words.
    requires gathered { IsGatheredBy (local_with (caller_seen seen)) gathered.old }
    // With an outcome the caller still belongs to these rows, with the same number.
    ensures caller { IfOk result (λ r. IsStill P.meaning rows.now (caller_seen seen) r.0) }
    // With an outcome the caller has made peeks and no other event, and the counter of steps has
    // risen by 1 for each of them.
    ensures peeks { IfOk result (λ r. OnlyPeeks (caller_seen seen) r.0 steps.old steps.new) }
    // With an outcome the caller is idle.
    ensures idle { IfOk result (λ r. IsIdle (local_with r.0)) }
    // After `Delivered` the caller is ready for its next call, and after `Illegal` it is halted.
    ensures stands { IfOk result (λ r. stance_of r.0 ≡ stance_after r.1) }
    // The record of an outcome is that of the seen call.
    ensures record { IfOk result (λ r. record_in r.1 ≡ record_seen seen) }
    // The seen cut of an outcome is that of the seen call.
    ensures cut { IfOk result (λ r. cut_in r.1 ≡ cut_seen seen) }
    // The count for the caller in the seen cut of an outcome is the number of records that the
    // caller has published.
    ensures own { IfOk result (λ r. HoldsOwn (cut_in r.1) r.0) }
    // An outcome is right for a book that the caller has gathered at the seen cut, by peeking each
    // of its words: `Delivered` carries a legal order of that book, and `Illegal` carries that
    // book, which has no legal order.
    ensures gathered { IfOk result
        (λ r. IsRightByPeeks (S.spec object.now) rows.now.callers (local_with r.0) r.1) }
    // In each reachable world in which the caller has its local, an outcome is right for the book
    // at the seen cut, taken from the book of all callers' calls: `Delivered` carries a legal order
    // of that book at the cut, and `Illegal` carries that book, which has no legal order.
    ensures verdict { IfOk result (λ r. IsRightOf (S.spec object.now) P.meaning rows.now r.0 r.1) }
    // With an outcome, where a book is kept after the call, the caller has gathered it at the cut
    // that is kept with it, by peeking each of its words.
    ensures kept { IfOk result (λ r. IsGatheredBy (local_with r.0) gathered.new) }
    // After `Delivered` a book of as many callers as the rows have is kept, with the seen cut, and
    // after `Illegal` no book is kept.
    ensures kept_book { IfOk result (λ r. IsKeptAfterOutcome rows.now.callers r.1 gathered.new) }
    // With an outcome the counter of steps has risen by the number of words of the call's book that
    // the book kept before lacks, where the book kept before is of as many callers as the rows have
    // and its cut is within the seen cut. Where no book was kept before, the counter has risen by
    // the number of all words of the call's book.
    ensures new_words { IfOk result (λ r.
        TicksForNewAfter rows.now.callers gathered.old r.1 gathered.new steps.old steps.new) }
    // The caller of an unjudged call still belongs to these rows, with the same number.
    ensures unjudged_caller { IfErr result
        (λ u. IsStill P.meaning rows.now (caller_seen seen) u.caller) }
    // The caller of an unjudged call has made peeks and no other event, and the counter of steps
    // has risen by 1 for each of them.
    ensures unjudged_peeks { IfErr result
        (λ u. OnlyPeeks (caller_seen seen) u.caller steps.old steps.new) }
    // The caller of an unjudged call is halted.
    ensures unjudged_stands { IfErr result
        (λ u. stance_of u.caller ≡ record ready { live = false }) }
    // The reply, the view and the cut of an unjudged call are those of the seen call.
    ensures unjudged_record { IfErr result
        (λ u. (u.reply ≡ (record_seen seen).reply) × (u.view ≡ (record_seen seen).view)
        × (u.seen ≡ cut_seen seen)) }
    // The count for the caller of an unjudged call in its seen cut is the number of records that
    // this caller has published.
    ensures unjudged_own { IfErr result (λ u. HoldsOwn u.seen u.caller) }
    // After an unjudged call no book is kept.
    ensures unjudged_kept { IfErr result (λ u. gathered.new ≡ None) }
    // The counter of steps has not fallen.
    ensures ticks { steps.old ≤ steps.new }
{
    let (told, cut) = (seen.record(), seen.cut());
    let mut standing = kept_places(alloc, guide);
    match judge_seen(alloc, object, rows, seen, gathered, &mut standing, steps) {
        Ok((caller, verdict)) => Ok((
            caller,
            outcome_with(alloc, told, cut, verdict, standing, guide),
        )),
        Err(
            Seen {
                caller,
                record,
                cut: seen,
            },
        ) => Err(Unjudged {
            caller: halted(rows, caller),
            reply: record.reply,
            view: record.view,
            seen,
        }),
    }
}
