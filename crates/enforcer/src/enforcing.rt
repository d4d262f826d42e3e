ghost use Rattle.std.specs.Prelude.{◌≡◌, ◌+◌, ◌<◌, ◌≤◌, false, None, IfOk, IfErr};
ghost use Rattle.world_core.specs.Local.{IsIdle};
ghost use Rattle.report_lines.specs.Phases.{progress_of};
ghost use Rattle.row_table.specs.Callers.{who_of, local_with, stance_of, IsCallerOf, IsStill};
ghost use Rattle.row_gather.specs.Gathered.{IsGatheredBy};
ghost use Rattle.drv_wrapper.specs.Growth.{Grows};
ghost use Rattle.drv_wrapper.specs.Stands.{ready};
ghost use Rattle.drv_wrapper.specs.Telling.{told_after};
ghost use Rattle.enforcer.specs.Recorded.{HoldsOwn};
ghost use Rattle.enforcer.specs.Judged.{record_in, cut_in, stance_after, AreWide, IsRightByPeeks, IsRightOf};
ghost use Rattle.enforcer.specs.Kept.{IsKeptAfterOutcome};
ghost use Rattle.enforcer.specs.Enforced.{after_call, record_unjudged, reply_of, TicksForWholeCall};

use crate::calling::call_and_see;
use crate::guided::judge;
use crate::outcome::{Outcome, Unjudged};
use book_base::OpWord;
use drv_wrapper::BlackBox;
use frontier_check::Guide;
use row_gather::Gathered;
use row_table::{Caller, Rows, Steps};
use search_hints::SearchHints;
use std::alloc::Global;
use std::sync::ledger::Ledger;
use world_core::{Outside, Program};

/// Makes one call of an object, and checks it: the reply is delivered only where all replies that
/// the call's seen cut holds, of all callers and this one among them, are those that a sequential
/// object gives in one order.
///
/// The call is announced, the object is asked, the view is taken, and the record, a reply and a
/// view, is published; then a cut of the published records is seen, and the book at that cut is
/// judged.
///
/// This is the call to make instead of the object's own. In this example two callers make a call of
/// a queue each, one after the other, over an object `Replies` with its `RepliesPass`; both are
/// written as on the page of [`BlackBox`]:
///
/// ```text
/// // What a caller found, and whether it is live afterwards.
/// type Found = Result<(Told, bool), NoMemory>;
///
/// // A caller of two makes its first call, which checks itself against a queue.
/// fn call_queue<L: Ledger>(
///     alloc: Global,
///     rows: &Rows,
///     caller: Caller,
///     op: OpWord,
///     object: &Replies,
///     guide: &mut Guide,
///     steps: &mut Steps<L>,
/// ) -> (Caller, Found)
///     requires caller { IsCallerOf ⟦<Outside as Program>⟧.meaning rows.now caller
///         × (rows.now.callers ≡ 2) }
///     requires fresh { (local_with caller ≡ local.fresh) × (stance_of caller ≡ ready) }
///     ensures caller { IsStill ⟦<Outside as Program>⟧.meaning rows.now caller result.0 }
/// {
///     let mut pass = RepliesPass {
///         caller: caller.who(),
///         made: 0,
///         cap: 1,
///     };
///     let mut gathered = None;
///     match enforce(
///         alloc,
///         rows,
///         caller,
///         op,
///         &Queue,
///         object,
///         &mut pass,
///         &mut gathered,
///         guide,
///         steps,
///     ) {
///         Ok((caller, outcome)) => {
///             let live = caller.live();
///             (caller, Ok((told(alloc, outcome), live)))
///         }
///         Err(
///             Unjudged {
///                 caller,
///                 reply: _,
///                 view: _,
///                 seen: _,
///             },
///         ) => (caller, Err(NoMemory)),
///     }
/// }
///
/// // One of two callers enqueues 5, and then the other dequeues: what each found.
/// fn enqueue_and_dequeue<L: Ledger>(
///     alloc: Global,
///     object: &Replies,
///     blank: Blank,
/// ) -> Result<(Found, Found), NoMemory>
///     requires { (blank.name ≡ L.name) × (blank.parts ≡ L.parts) × (0 < blank.parts) }
/// {
///     let mut guide = Guide::new(alloc)?;
///     let mut steps = Steps::<L>::new(blank);
///     let (rows, mut bench) = Rows::open(alloc, Outside, 2, 4)?;
///     let a = fresh_caller(&rows, &mut bench, 0);
///     let (a, first) = call_queue(alloc, &rows, a, ENQ_FIVE, object, &mut guide, &mut steps);
///     let b = fresh_caller(&rows, &mut bench, 1);
///     let (b, second) = call_queue(alloc, &rows, b, DEQ, object, &mut guide, &mut steps);
///     rows.back(&mut bench, a);
///     rows.back(&mut bench, b);
///     rows.close(alloc, bench)?;
///     Ok((first, second))
/// }
/// ```
///
/// Where the object replies `done` and `=5`, the second outcome is `Delivered` with the order `enq
/// 5`, `deq`. Where it replies `none` to both, the first outcome is `Illegal` already: no queue
/// replies `none` to an `enq`.
///
/// What you hand in:
///
/// - `rows` and `caller`: the table that all callers share, and one of its callers, live and idle,
///   with a call left. The caller is spent, and comes back with each answer.
/// - `op`: the operation, as a word that the sequential object reads.
/// - `sequential`: the object that says which replies are right (`SeqObject` in `book_base`, with
///   what a search is told by `SearchHints` in `search_hints`). A verdict is about this one, so all
///   callers hand in the same.
/// - `object` and `pass`: the object under test, and this caller's own pass of it, with a call
///   left. One call is made with it, neither more nor fewer, whatever becomes of the judgement.
/// - `gathered`: the book that this caller gathered last, and `None` before its first call. The
///   book of a call grows from it, so that only the words that it lacks are peeked: each later seen
///   cut of a caller contains its earlier ones. After `Delivered` it is the book that was judged:
///   hand it to the same caller's next call. After `Illegal`, which carries its book, and after
///   `Unjudged` it is `None`. Like the guide it never changes a verdict, so `None` is always good;
///   but then the words of all earlier calls are peeked again.
/// - `guide`: the last order that was found. Where a book is handed in, the search for the next
///   order begins after the guide's places. It costs or saves time alone, and never changes a
///   verdict, so a new one is always good. The sequential object is asked for each of these places
///   again; a caller that keeps its last order with marks makes its call by
///   [`call_and_see`](crate::call_and_see) and then [`judge_seen`](crate::judge_seen), which asks
///   only for those after the last mark up to which the places still follow one another.
/// - `steps`: the counter that rises by 1 with each word of the table that is looked at or peeked:
///   with the words of four scans, and with those of the book that `gathered` lacks.
///
/// Each caller keeps one pass, one gathered book, one guide and one counter of its own, and makes
/// its calls from its own thread. On one thread, as in the example, guide and counter may be
/// shared, but never the pass or the gathered book. No call takes a lock or waits for another
/// caller, and a caller that stops in the midst of its call holds up no other caller.
///
/// What you may conclude from an answer:
///
/// - `Delivered`: the order is a legal one of the book at the seen cut. The book has every record
///   that the cut holds, and with them this call's record, the last of its caller's; so the order
///   explains this reply and each one that was delivered with a seen cut within this one. A call
///   that precedes another one by the views comes before it in the order too. The caller is live
///   and idle. The object may still be wrong: where calls overlap, a wrong reply may be a right one
///   in the wider intervals from announcement to view, and then it isn't found.
/// - `Illegal`: no order explains the book at the seen cut, which the outcome carries. It is
///   evidence against the object that needs no trust in this run: written as text, `selfcheck
///   verify` answers the same to anyone. No run whose object calls are linearizable has such an
///   outcome. The caller is halted.
/// - [`Unjudged`]: memory was refused while the book was gathered or judged. It says nothing about
///   the object. The reply is in the answer, unchecked, the record stays published, so that the
///   judgements of the other callers hold it, and the caller is halted.
///
/// An error is final: every judgement at a cut that contains an illegal one is an error too
/// ([`errors_are_final`](crate::laws::errors_are_final)). After an error each caller whose next
/// call begins later is halted at that call (Castañeda and Rodríguez 2023).
pub fn enforce<S: SearchHints, B: BlackBox, L: Ledger>(
    alloc: Global,
    rows: &Rows,
    caller: Caller,
    op: OpWord,
    sequential: &S,
    object: &B,
    pass: &mut B::Pass,
    gathered: &mut Option<Gathered>,
    guide: &mut Guide,
    steps: &mut Steps<L>,
) -> Result<(Caller, Outcome), Unjudged>
    // The caller belongs to these rows.
    requires rows { IsCallerOf ⟦<Outside as Program>⟧.meaning rows.now caller }
    // The caller is idle.
    requires idle { IsIdle (local_with caller) }
    // The caller has announced fewer calls than the cap.
    requires row { (local_with caller).announced < rows.now.cap }
    // The caller is live, means to begin no scan, and keeps no reply.
    requires stands { stance_of caller ≡ ready }
    // The pass belongs to this object.
    requires own { B.is_own object.now pass.old }
    // The pass is this caller's.
    requires pass { B.Pass.caller pass.old ≡ who_of caller }
    // The pass has made fewer calls than it may make.
    requires left { B.Pass.made pass.old < B.Pass.cap pass.old }
    // Where a book is kept, the caller has gathered it at the cut that is kept with it, by peeking
    // each of its words.
    requires gathered { IsGatheredBy (local_with caller) gathered.old }
    // With an outcome the caller still belongs to these rows, with the same number.
    ensures caller { IfOk result (λ r. IsStill ⟦<Outside as Program>⟧.meaning rows.now caller r.0) }
    // With an outcome the caller is idle.
    ensures idle { IfOk result (λ r. IsIdle (local_with r.0)) }
    // After `Delivered` the caller is ready for its next call, and after `Illegal` it is halted.
    ensures stands { IfOk result (λ r. stance_of r.0 ≡ stance_after r.1) }
    // With an outcome the caller has made one call more than before, with this operation and the
    // record and the seen cut of the outcome, and has published one record more.
    ensures progress { IfOk result (λ r. progress_of (local_with r.0)
        ≡ after_call op (record_in r.1) (cut_in r.1) (progress_of (local_with caller))) }
    // The view and the seen cut of an outcome have one count for each caller.
    ensures wide { IfOk result (λ r. AreWide rows.now.callers (record_in r.1).view (cut_in r.1)) }
    // The count for the caller in the seen cut of an outcome is the number of records that the
    // caller has published.
    ensures own { IfOk result (λ r. HoldsOwn (cut_in r.1) r.0) }
    // With an outcome the caller's local has each look, each peek and each given cut that it had
    // before the call.
    ensures grows { IfOk result (λ r. Grows (local_with caller) (local_with r.0)) }
    // An outcome is right for a book that the caller has gathered at the seen cut, by peeking each
    // of its words: `Delivered` carries a legal order of that book, and `Illegal` carries that
    // book, which has no legal order.
    ensures gathered { IfOk result
        (λ r. IsRightByPeeks (S.spec sequential.now) rows.now.callers (local_with r.0) r.1) }
    // In each reachable world in which the caller has its local, an outcome is right for the book
    // at the seen cut, taken from the book of all callers' calls: `Delivered` carries a legal order
    // of that book at the cut, and `Illegal` carries that book, which has no legal order.
    ensures verdict { IfOk result
        (λ r. IsRightOf (S.spec sequential.now) ⟦<Outside as Program>⟧.meaning rows.now r.0 r.1) }
    // With an outcome, where a book is kept after the call, the caller has gathered it at the cut
    // that is kept with it, by peeking each of its words.
    ensures kept { IfOk result (λ r. IsGatheredBy (local_with r.0) gathered.new) }
    // After `Delivered` a book of as many callers as the rows have is kept, with the seen cut, and
    // after `Illegal` no book is kept.
    ensures kept_book { IfOk result (λ r. IsKeptAfterOutcome rows.now.callers r.1 gathered.new) }
    // With an outcome the counter of steps has risen by at most the words that four scans may take,
    // and then by the number of words of the call's book that the book kept before lacks, where the
    // book kept before is of as many callers as the rows have and its cut is within the seen cut.
    // Where no book was kept before, the second part is the number of all words of the call's book.
    ensures new_words { IfOk result (λ r.
        TicksForWholeCall rows.now.callers gathered.old r.1 gathered.new steps.old steps.new) }
    // The caller of an unjudged call still belongs to these rows, with the same number.
    ensures unjudged_caller { IfErr result
        (λ u. IsStill ⟦<Outside as Program>⟧.meaning rows.now caller u.caller) }
    // The caller of an unjudged call is halted.
    ensures unjudged_stands { IfErr result
        (λ u. stance_of u.caller ≡ record ready { live = false }) }
    // The caller of an unjudged call has made one call more than before, with this operation and
    // the record and the seen cut of the answer, and has published one record more.
    ensures unjudged_progress { IfErr result (λ u. progress_of (local_with u.caller)
        ≡ after_call op (record_unjudged u) u.seen (progress_of (local_with caller))) }
    // The view and the seen cut of an unjudged call have one count for each caller.
    ensures unjudged_wide { IfErr result (λ u. AreWide rows.now.callers u.view u.seen) }
    // The count for the caller of an unjudged call in its seen cut is the number of records that
    // this caller has published.
    ensures unjudged_own { IfErr result (λ u. HoldsOwn u.seen u.caller) }
    // The local of the caller of an unjudged call has each look, each peek and each given cut that
    // it had before the call.
    ensures unjudged_grows { IfErr result (λ u. Grows (local_with caller) (local_with u.caller)) }
    // After an unjudged call no book is kept.
    ensures unjudged_kept { IfErr result (λ u. gathered.new ≡ None) }
    // The pass still belongs to this object.
    ensures pass { B.is_own object.now pass.new }
    // The pass has made one call more than before.
    ensures made { B.Pass.made pass.new ≡ B.Pass.made pass.old + 1 }
    // The pass keeps its caller and the number of calls that it may make.
    ensures same { (B.Pass.caller pass.new ≡ B.Pass.caller pass.old)
        × (B.Pass.cap pass.new ≡ B.Pass.cap pass.old) }
    // Where the pass has a told list, the list has one more entry at its end: this operation with
    // the reply of the call, judged or not. A pass without a told list still has none.
    ensures told { B.Pass.told pass.new ≡ told_after op (reply_of result) (B.Pass.told pass.old) }
    // The counter of steps has not fallen.
    ensures ticks { steps.old ≤ steps.new }
{
    let seen = call_and_see(caller, rows, op, object, pass, steps);
    judge(alloc, sequential, rows, seen, gathered, guide, steps)
}
