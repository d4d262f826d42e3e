ghost use Rattle.std.specs.Prelude.{◌≡◌, ◌+◌, ◌≤◌, false, None, Some, IfOk, IfErr, IfSome, IfNone};
ghost use Rattle.book_base.specs.Order.{IsLegalOrder, HasLegalOrder};
ghost use Rattle.world_core.specs.Local.{IsIdle};
ghost use Rattle.world_core.specs.Calls.{IsGathered};
ghost use Rattle.row_table.specs.Callers.{local_with, stance_of, IsCallerOf, IsStill};
ghost use Rattle.row_gather.specs.Peeks.{OnlyPeeks};
ghost use Rattle.row_gather.specs.Exact.{IsTheBookAt};
ghost use Rattle.row_gather.specs.Words.{words_of_book};
ghost use Rattle.row_gather.specs.Gathered.{IsGatheredBy, TicksForNew};
ghost use Rattle.frontier_check.specs.Standing.{IsStandingFor};
ghost use Rattle.enforcer.specs.Recorded.{HoldsOwn};
ghost use Rattle.enforcer.specs.States.{caller_seen, cut_seen, record_seen};
ghost use Rattle.enforcer.specs.Judged.{IsRightByPeeks, IsRightOf};
ghost use Rattle.enforcer.specs.Verdicts.{OrderStandsIn, IsGatheredWithin, IsOutcome, IsKeptAfter, TicksForJudged, stance_judged};

use crate::call_verdict::CallVerdict;
use crate::seen_call::Seen;
use book_base::{Cut, NoMemory};
use frontier_check::{KeptOrder, check_after};
use row_gather::{Gathered, grow_at};
use row_table::{Caller, Rows, Steps};
use search_hints::SearchHints;
use std::alloc::Global;
use std::sync::ledger::Ledger;
use world_core::Program;

/// Gathers the book at the seen cut of a call: the records that this cut holds, of all callers, and
/// the calls that some of their views hold.
///
/// The caller may hand in a book that it has gathered before. That book grows to the new one where
/// the seen cut contains its cut, as each later seen cut of the same caller does; then only the
/// words that the earlier book lacks are peeked. Where memory is lacking, the caller may have
/// peeked some of these words, the book that it handed in is gone, and nothing else has changed.
pub fn gather<P: Program, L: Ledger>(
    alloc: Global,
    rows: &Rows<P>,
    seen: &mut Seen<P>,
    gathered: Option<Gathered>,
    steps: &mut Steps<L>,
) -> Result<Gathered, NoMemory>
    // The caller of the seen call belongs to these rows.
    requires rows { IsCallerOf P.meaning rows.now (caller_seen seen.old) }
    // Where a book is handed in, the caller has gathered it at the cut that comes with it, by
    // peeking each of its words.
    requires gathered { IsGatheredBy (local_with (caller_seen seen.old)) gathered }
    // The caller still belongs to these rows, with the same number.
    ensures caller { IsStill P.meaning rows.now (caller_seen seen.old) (caller_seen seen.new) }
    // The seen call keeps its record.
    ensures record { record_seen seen.new ≡ record_seen seen.old }
    // The seen call keeps its cut.
    ensures cut { cut_seen seen.new ≡ cut_seen seen.old }
    // The caller has made peeks and no other event, and the counter of steps has risen by 1 for
    // each of them.
    ensures peeks { OnlyPeeks (caller_seen seen.old) (caller_seen seen.new) steps.old steps.new }
    // The cut that is returned with the gathered book is the seen cut.
    ensures at { IfOk result (λ g. g.cut ≡ cut_seen seen.new) }
    // The caller has gathered the book at the seen cut, by peeking each of its words, and the book
    // is of as many callers as the rows have.
    ensures gathered { IfOk result (λ g.
        IsGathered rows.now.callers (local_with (caller_seen seen.new))
        (cut_seen seen.new) g.book) }
    // In each reachable world in which the caller has its local, the gathered book is the book at
    // the seen cut, taken from the book of all callers' calls.
    ensures exact { IfOk result (λ g.
        IsTheBookAt P.meaning rows.now (caller_seen seen.new) (cut_seen seen.new) g.book) }
    // Where no book was handed in, the counter of steps has risen by the number of row words of the
    // gathered book. Where the book that was handed in is of as many callers as the rows have, and
    // its cut is within the seen cut, the counter has risen by the number of row words that the
    // gathered book has and the earlier one lacks.
    ensures ticks { IfOk result (λ g. TicksForNew rows.now.callers gathered g steps.old steps.new) }
    // The counter of steps has risen by at most the number of row words of the gathered book.
    ensures most { IfOk result (λ g. steps.new ≤ steps.old + words_of_book g.book) }
{
    grow_at(alloc, rows, &mut seen.caller, gathered, &seen.cut, steps)
}

/// The order `standing`, if there is one, where a book of `n` callers is kept and `cut` contains
/// the cut that is kept with that book; otherwise `None`. A returned order that stands in the kept
/// book also stands in the book that its caller gathers at `cut`, since that book grows from the
/// kept one.
pub fn standing_in(
    n: u32,
    gathered: &Option<Gathered>,
    standing: Option<KeptOrder>,
    cut: &Cut,
) -> Option<KeptOrder>
    // Where an order is returned, it is the one that was handed in.
    ensures same { IfSome result (λ s. standing ≡ Some s) }
    // Where an order is returned, a book of `n` callers is kept, and the cut that is kept with it
    // is within `cut`.
    ensures held { IfSome result (λ _. IsGatheredWithin n gathered.now cut.now) }
{
    let Some(kept) = gathered else {
        return None;
    };
    if kept.book.callers() != n || kept.cut.n() != cut.n() || !kept.cut.within(cut) {
        return None;
    }
    match standing {
        Some(standing) => Some(standing),
        None => None,
    }
}

// Gathers the book at the seen cut, and returns it with a legal order of it and the marks of that
// order, or with `None` where the book has no legal order.
fn decide<P: Program, S: SearchHints, L: Ledger>(
    alloc: Global,
    object: &S,
    rows: &Rows<P>,
    seen: &mut Seen<P>,
    gathered: Option<Gathered>,
    standing: Option<KeptOrder>,
    steps: &mut Steps<L>,
) -> Result<(Gathered, Option<KeptOrder>), NoMemory>
    requires rows { IsCallerOf P.meaning rows.now (caller_seen seen.old) }
    requires gathered { IsGatheredBy (local_with (caller_seen seen.old)) gathered }
    requires stands { OrderStandsIn (S.spec object.now) gathered standing }
    ensures caller { IsStill P.meaning rows.now (caller_seen seen.old) (caller_seen seen.new) }
    ensures record { record_seen seen.new ≡ record_seen seen.old }
    ensures cut { cut_seen seen.new ≡ cut_seen seen.old }
    ensures peeks { OnlyPeeks (caller_seen seen.old) (caller_seen seen.new) steps.old steps.new }
    ensures at { IfOk result (λ r. r.0.cut ≡ cut_seen seen.new) }
    ensures gathered { IfOk result (λ r.
        IsGathered rows.now.callers (local_with (caller_seen seen.new))
        (cut_seen seen.new) r.0.book) }
    ensures exact { IfOk result (λ r.
        IsTheBookAt P.meaning rows.now (caller_seen seen.new) (cut_seen seen.new) r.0.book) }
    ensures ticks { IfOk result (λ r.
        TicksForNew rows.now.callers gathered r.0 steps.old steps.new) }
    ensures legal { IfOk result
        (λ r. IfSome r.1 (λ s. IsLegalOrder (S.spec object.now) r.0.book s.order.items)) }
    ensures stands { IfOk result (λ r. IfSome r.1 (IsStandingFor (S.spec object.now) r.0.book)) }
    ensures illegal { IfOk result
        (λ r. IfNone r.1 (HasLegalOrder (S.spec object.now) r.0.book → ⊥)) }
{
    let before = standing_in(rows.callers(), &gathered, standing, &seen.cut);
    let found = gather(alloc, rows, seen, gathered, steps)?;
    let after = check_after(alloc, object, &found.book, before)?;
    Ok((found, after))
}

// Halts a caller of these rows: it makes no further call, and its local is unchanged.
pub(crate) fn halted<P: Program>(rows: &Rows<P>, caller: Caller<P>) -> Caller<P>
    requires rows { IsCallerOf P.meaning rows.now caller }
    ensures caller { IsStill P.meaning rows.now caller result }
    ensures local { local_with result ≡ local_with caller }
    ensures stance { stance_of result ≡ record (stance_of caller) { live = false } }
{
    caller.halt()
}

/// Judges a call by the book at its seen cut: delivers the reply where the book has a legal order,
/// and otherwise returns the error with that book (Castañeda and Rodríguez 2023).
///
/// After `Delivered` the caller is live and idle, and after `Illegal` it is halted. Where memory is
/// lacking, the call isn't judged: the seen call is given back, and it may be judged again.
///
/// `gathered` is the book that this caller has gathered before, and `standing` an order with its
/// marks in that book, for this object; both are `None` before the caller's first call. The new
/// book grows from the kept one, and only the words that the kept one lacks are peeked, where the
/// seen cut contains the cut of the kept book, as it does where both are cuts of one caller. The
/// search begins after the last mark up to which the order's places still follow one another in the
/// grown book. A call mostly costs no more than what is new; no clause says how long a search
/// takes. After `Delivered` both are set for the caller's next call, and `standing` has the order
/// that was found. After `Illegal`, and where the call isn't judged, `gathered` is `None`, and
/// without a book a kept order is not used, so it needn't be removed.
///
/// A kept order is good for one object alone, and its value doesn't say for which one: therefore
/// the condition `stands` is needed. [`judge`](crate::judge) has no such condition, since it asks
/// the object for each place again.
pub fn judge_seen<P: Program, S: SearchHints, L: Ledger>(
    alloc: Global,
    object: &S,
    rows: &Rows<P>,
    mut seen: Seen<P>,
    gathered: &mut Option<Gathered>,
    standing: &mut Option<KeptOrder>,
    steps: &mut Steps<L>,
) -> Result<(Caller<P>, CallVerdict), Seen<P>>
    // The caller of the seen call belongs to these rows.
    requires rows { IsCallerOf P.meaning rows.now (caller_seen seen) }
    // Where a book is kept, the caller has gathered it at the cut that is kept with it, by peeking
    // each of its words.
    requires gathered { IsGatheredBy (local_with (caller_seen seen)) gathered.old }
    // Where a book and an order are kept, the order stands in the book: for this object, the
    // order's places up to each of its marks follow one another in that book, or in an earlier one
    // from which that book has grown.
    requires stands { OrderStandsIn (S.spec object.now) gathered.old standing.old }
    // The caller of a judged call still belongs to these rows, with the same number.
    ensures caller { IfOk result (λ r. IsStill P.meaning rows.now (caller_seen seen) r.0) }
    // The caller of a judged call has made peeks and no other event, and the counter of steps has
    // risen by 1 for each of them.
    ensures peeks { IfOk result (λ r. OnlyPeeks (caller_seen seen) r.0 steps.old steps.new) }
    // The caller of a judged call is idle.
    ensures idle { IfOk result (λ r. IsIdle (local_with r.0)) }
    // After `Delivered` the caller is ready for its next call, and after `Illegal` it is halted.
    ensures stance { IfOk result (λ r. stance_of r.0 ≡ stance_judged r.1) }
    // The count for the caller of a judged call in its seen cut is the number of records that this
    // caller has published.
    ensures own { IfOk result (λ r. HoldsOwn (cut_seen seen) r.0) }
    // The verdict is right for a book that the caller has gathered at the seen cut, by peeking each
    // of its words: after `Delivered` an order is kept, and it is a legal order of that book;
    // `Illegal` carries that book, which has no legal order.
    ensures gathered { IfOk result (λ r. IsOutcome (record_seen seen) (cut_seen seen) r.1
        standing.new (IsRightByPeeks (S.spec object.now) rows.now.callers (local_with r.0))) }
    // In each reachable world in which the caller has its local, the verdict is right for the book
    // at the seen cut, taken from the book of all callers' calls: after `Delivered` an order is
    // kept, and it is a legal order of that book at the cut; `Illegal` carries that book, which has
    // no legal order.
    ensures verdict { IfOk result (λ r. IsOutcome (record_seen seen) (cut_seen seen) r.1
        standing.new (IsRightOf (S.spec object.now) P.meaning rows.now r.0)) }
    // Where the call is judged and a book is kept after it, the caller has gathered this book at
    // the cut that is kept with it, by peeking each of its words.
    ensures kept { IfOk result (λ r. IsGatheredBy (local_with r.0) gathered.new) }
    // After `Delivered` a book of as many callers as the rows have is kept, with the seen cut, and
    // after `Illegal` no book is kept.
    ensures kept_book { IfOk result
        (λ r. IsKeptAfter rows.now.callers (cut_seen seen) r.1 gathered.new) }
    // Where a book and an order are kept after the call, the order stands in the book: for this
    // object, the order's places up to each of its marks follow one another in that book, or in an
    // earlier one from which that book has grown.
    ensures stands { OrderStandsIn (S.spec object.now) gathered.new standing.new }
    // Where the call is judged, the counter of steps has risen by the number of words of the judged
    // book that the book kept before lacks, if the book kept before is of as many callers as the
    // rows have and its cut is within the seen cut. If no book was kept before, the counter has
    // risen by the number of all words of the judged book.
    ensures new_words { IfOk result (λ r. TicksForJudged rows.now.callers gathered.old
        (cut_seen seen) r.1 gathered.new steps.old steps.new) }
    // The caller of an unjudged call still belongs to these rows, with the same number.
    ensures unjudged_caller { IfErr result
        (λ s. IsStill P.meaning rows.now (caller_seen seen) (caller_seen s)) }
    // The caller of an unjudged call has made peeks and no other event, and the counter of steps
    // has risen by 1 for each of them.
    ensures unjudged_peeks { IfErr result
        (λ s. OnlyPeeks (caller_seen seen) (caller_seen s) steps.old steps.new) }
    // The record and the cut of an unjudged call are those of the seen call.
    ensures unjudged_record { IfErr result (λ s. (record_seen s ≡ record_seen seen)
        × (cut_seen s ≡ cut_seen seen)) }
    // After an unjudged call no book is kept.
    ensures unjudged_kept { IfErr result (λ s. gathered.new ≡ None) }
    // The counter of steps has not fallen.
    ensures ticks { steps.old ≤ steps.new }
{
    let decided = decide(
        alloc,
        object,
        rows,
        &mut seen,
        gathered.take(),
        standing.take(),
        steps,
    );
    match decided {
        Ok((found, after)) => {
            let Seen {
                caller,
                record: _,
                cut: _,
            } = seen;
            match after {
                Some(order) => {
                    *gathered = Some(found);
                    *standing = Some(order);
                    Ok((caller, CallVerdict::Delivered))
                }
                None => {
                    let Gathered { book, cut: _ } = found;
                    Ok((halted(rows, caller), CallVerdict::Illegal(book)))
                }
            }
        }
        Err(NoMemory) => Err(seen),
    }
}
