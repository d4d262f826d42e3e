ghost use Rattle.book_base.specs.SeqSpec.{SeqSpec};

use crate::board::Board;
use crate::claim::Claim;
use crate::round::Round;
use crate::witness::Witness;
use book_base::NoMemory;
use collect_scan::scan;
use enforcer::standing_in;
use frontier_check::{KeptOrder, check_after};
use row_gather::{Gathered, grow_at};
use row_table::{Caller, Rows, Steps};
use search_hints::SearchHints;
use std::alloc::Global;
use std::sync::ledger::Ledger;
use world_core::{Outside, Program, Region};

/// A caller that makes no calls: round by round it judges what the others have published.
///
/// It keeps the book that it gathered last, so that a round peeks only the words that this book
/// lacks. [`Monitor::round_after`], by which a watch makes its rounds, also begins each search
/// after those places of the last order that still stand.
#[derive(Drop)]
pub struct Monitor<P = Outside> {
    caller: Caller<P>,
    gathered: Option<Gathered>,
    claim: Claim,
}

impl<P: Program> Monitor<P> {
    ghost use Rattle.std.specs.Prelude.{◌≡◌, ◌+◌, ◌≤◌, true, false, is_some, None, Some, IfOk, IfSome, IfNone, IsSomeAnd, OnErr};
    ghost use Rattle.std.specs.Option.{MatchOption};
    ghost use Rattle.once_cell.specs.Once.{Agrees};
    ghost use Rattle.world_core.specs.Local.{IsIdle};
    ghost use Rattle.row_table.specs.Callers.{who_of, local_with, stance_of};
    ghost use Rattle.drv_wrapper.specs.Stands.{ready};
    ghost use Rattle.frontier_check.specs.Standing.{IsStandingFor};
    ghost use Rattle.enforcer.specs.Verdicts.{OrderStandsIn};
    ghost use Rattle.monitor.specs.Claims.{KnowsOrLacked, Agree};
    ghost use Rattle.monitor.specs.Monitors.{caller_of, local_of, own_of, placed_by, known_by, kept_by, IsOn, AreOfOne, IsMonitorOf, Becomes, IsLater, HasFound, HasScannedSome, HasGathered, IsKeptAfter, TicksForBook, TicksForRound};

    /// A monitor that has made no round. It takes no memory.
    pub fn new(caller: Caller<P>, board: &Board) -> Monitor<P>
        // The caller is idle.
        requires idle { IsIdle (local_with caller) }
        // The caller makes calls, means to begin no scan, and keeps no reply.
        requires live { stance_of caller ≡ ready }
        // The monitor belongs to all rows that `caller` belongs to.
        ensures monitor { Becomes caller result }
        // The monitor's caller is `caller`.
        ensures caller { caller_of result ≡ caller }
        // The monitor belongs to `board`.
        ensures board { IsOn board.now result }
        // The monitor has no own witness, `placed` is false, and it knows no witness on the board.
        ensures nothing { (own_of result ≡ None) × (placed_by result ≡ false)
            × (known_by result ≡ None) }
    {
        Monitor {
            caller,
            gathered: None,
            claim: Claim::new(board),
        }
    }

    // Makes one scan of M, and grows the kept book to the one at the scan's cut. It answers that
    // book, and what of the kept order in `standing` still stands in it.
    //
    // Afterwards the monitor keeps no book.
    fn look<L: Ledger>(
        &mut self,
        alloc: Global,
        rows: &Rows<P>,
        standing: Option<KeptOrder>,
        steps: &mut Steps<L>,
    ) -> Result<(Gathered, Option<KeptOrder>), NoMemory>
        requires rows { IsMonitorOf P.meaning rows.now self.old }
        ensures rows { IsMonitorOf P.meaning rows.now self.new }
        ensures who { who_of self.new.caller ≡ who_of self.old.caller }
        ensures claim { self.new.claim ≡ self.old.claim }
        ensures none { kept_by self.new ≡ None }
        ensures scanned { HasScannedSome (local_of self.old) (local_of self.new) }
        ensures gathered { IfOk result
            (λ r. HasGathered rows.now.callers (local_of self.old) (local_of self.new) r.0) }
        ensures stands { IfOk result (λ r. (spec : SeqSpec) → OrderStandsIn spec
            (kept_by self.old) standing → IfSome r.1 (IsStandingFor spec r.0.book)) }
        ensures ticks { IfOk result
            (λ r. TicksForBook rows.now.callers (kept_by self.old) r.0 steps.old steps.new) }
        ensures rise { steps.old ≤ steps.new }
    {
        let cut = scan(rows, &mut self.caller, Region::M, steps);
        let kept = self.gathered.take();
        let before = standing_in(rows.callers(), &kept, standing, &cut);
        let found = grow_at(alloc, rows, &mut self.caller, kept, &cut, steps)?;
        Ok((found, before))
    }

    /// Scans M, gathers the book at the scan's cut, and judges it (Castañeda and Rodríguez 2023).
    ///
    /// A book without a legal order becomes the monitor's own witness, and the monitor tries once
    /// to put a copy of it on the board. Where memory for the copy is lacking, the board isn't
    /// tried, and the round is told all the same.
    pub fn round<S: SearchHints, L: Ledger>(
        &mut self,
        alloc: Global,
        object: &S,
        rows: &Rows<P>,
        board: &Board,
        steps: &mut Steps<L>,
    ) -> Result<Round, NoMemory>
        // The monitor's caller belongs to `rows`, is live and idle, and has gathered the kept book.
        requires rows { IsMonitorOf P.meaning rows.now self.old }
        // The monitor belongs to `board`.
        requires board { IsOn board.now self.old }
        // The monitor has no own witness.
        requires none { own_of self.old ≡ None }
        // The monitor still belongs to `rows` and `board`, and its caller's number is unchanged.
        ensures later { IsLater P.meaning rows.now board.now self.old self.new }
        // The monitor's caller has scanned M once.
        ensures scanned { HasScannedSome (local_of self.old) (local_of self.new) }
        // After a legal round the book that was gathered at the cut of the round's scan has a legal
        // order, and the monitor has no own witness. After an illegal round that book has no legal
        // order, and is the monitor's own witness.
        ensures found { IfOk result (HasFound (S.spec object.now) rows.now.callers
            (local_of self.old) (local_of self.new) (own_of self.new)) }
        // A monitor that has an own witness afterwards knows a witness on the board: the one that
        // it knew before, if it knew one. Or memory for a copy of the own witness was lacking, and
        // what the monitor knows of the board is as before.
        ensures known { IfSome (own_of self.new)
            (λ w. KnowsOrLacked (known_by self.old) (known_by self.new)) }
        // `placed` is true afterwards only where the monitor knew no witness before.
        ensures first { placed_by self.new ≡ true → known_by self.old ≡ None }
        // After a legal round the monitor keeps the book at the cut of the round's scan, and after
        // an illegal round it keeps no book.
        ensures kept { IfOk result (λ r. IsKeptAfter rows.now.callers r (kept_by self.new)) }
        // Where the monitor has no own witness afterwards, its knowledge of the board is as before.
        ensures unfound { own_of self.new ≡ None → (known_by self.new ≡ known_by self.old)
            × (placed_by self.new ≡ placed_by self.old) }
        // After want of memory the monitor has no own witness.
        ensures err { OnErr result (own_of self.new ≡ None) }
        // The counter of steps has risen by at most as many words as a scan may take, and by the
        // number of words of the round's book that the kept book, if there is one, lacks. Nothing
        // is said where the kept book's cut isn't within the round's cut.
        ensures ticks { IfOk result
            (TicksForRound rows.now.callers (kept_by self.old) (kept_by self.new)
            (own_of self.new) steps.old steps.new) }
        // The counter of steps is at least what it was before.
        ensures rise { steps.old ≤ steps.new }
    {
        let mut standing = None;
        self.round_after(alloc, object, rows, board, &mut standing, steps)
    }

    /// Makes a round as [`Monitor::round`] does, but its search begins after those places of the
    /// kept order in `standing` that still stand. Afterwards `standing` has the legal order of the
    /// round's book, or nothing where the round was illegal or memory was lacking.
    pub fn round_after<S: SearchHints, L: Ledger>(
        &mut self,
        alloc: Global,
        object: &S,
        rows: &Rows<P>,
        board: &Board,
        standing: &mut Option<KeptOrder>,
        steps: &mut Steps<L>,
    ) -> Result<Round, NoMemory>
        // The monitor's caller belongs to `rows`, is live and idle, and has gathered the kept book.
        requires rows { IsMonitorOf P.meaning rows.now self.old }
        // The monitor belongs to `board`.
        requires board { IsOn board.now self.old }
        // The monitor has no own witness.
        requires none { own_of self.old ≡ None }
        // The kept order in `standing` stands in the book that the monitor keeps, judged by
        // `object`.
        requires stands { OrderStandsIn (S.spec object.now) (kept_by self.old) standing.old }
        // The monitor still belongs to `rows` and `board`, and its caller's number is unchanged.
        ensures later { IsLater P.meaning rows.now board.now self.old self.new }
        // The monitor's caller has scanned M once.
        ensures scanned { HasScannedSome (local_of self.old) (local_of self.new) }
        // After a legal round the book that was gathered at the cut of the round's scan has a legal
        // order, and the monitor has no own witness. After an illegal round that book has no legal
        // order, and is the monitor's own witness.
        ensures found { IfOk result (HasFound (S.spec object.now) rows.now.callers
            (local_of self.old) (local_of self.new) (own_of self.new)) }
        // A monitor that has an own witness afterwards knows a witness on the board: the one that
        // it knew before, if it knew one. Or memory for a copy of the own witness was lacking, and
        // what the monitor knows of the board is as before.
        ensures known { IfSome (own_of self.new)
            (λ w. KnowsOrLacked (known_by self.old) (known_by self.new)) }
        // `placed` is true afterwards only where the monitor knew no witness before.
        ensures first { placed_by self.new ≡ true → known_by self.old ≡ None }
        // After a legal round the monitor keeps the book at the cut of the round's scan, and after
        // an illegal round it keeps no book.
        ensures kept { IfOk result (λ r. IsKeptAfter rows.now.callers r (kept_by self.new)) }
        // The order in `standing` afterwards stands in the book that the monitor keeps then, judged
        // by `object`.
        ensures stands { OrderStandsIn (S.spec object.now) (kept_by self.new) standing.new }
        // Where the monitor has no own witness afterwards, its knowledge of the board is as before.
        ensures unfound { own_of self.new ≡ None → (known_by self.new ≡ known_by self.old)
            × (placed_by self.new ≡ placed_by self.old) }
        // After want of memory the monitor has no own witness.
        ensures err { OnErr result (own_of self.new ≡ None) }
        // The counter of steps has risen by at most as many words as a scan may take, and by the
        // number of words of the round's book that the kept book, if there is one, lacks. Nothing
        // is said where the kept book's cut isn't within the round's cut.
        ensures ticks { IfOk result
            (TicksForRound rows.now.callers (kept_by self.old) (kept_by self.new)
            (own_of self.new) steps.old steps.new) }
        // The counter of steps is at least what it was before.
        ensures rise { steps.old ≤ steps.new }
    {
        let (found, before) = self.look(alloc, rows, standing.take(), steps)?;
        match check_after(alloc, object, &found.book, before)? {
            Some(stands) => {
                let cut = found.cut;
                self.gathered = Some(found);
                *standing = Some(stands);
                Ok(Round::Legal(cut))
            }
            None => {
                let Gathered { book, cut } = found;
                self.claim.keep(alloc, board, Witness { cut, book });
                Ok(Round::Illegal(cut))
            }
        }
    }

    /// The monitor's own witness, where its last round was illegal.
    pub fn own(&self) -> Option<&Witness>
        // The answer is the monitor's own witness, and None where it has none.
        ensures { MatchOption result (own_of self.now ≡ None) (λ r. own_of self.now ≡ Some r.now) }
    {
        self.claim.own()
    }

    /// `true` only where the board took a copy of the monitor's own witness. No clause says that the
    /// answer is `true` wherever the board took one.
    pub fn placed(&self) -> bool
        ensures { result ≡ placed_by self.now }
    {
        self.claim.placed()
    }

    /// The witness on the board, if there is one. The monitor knows it from then on.
    pub fn known<'a>(&mut self, board: &'a Board) -> Option<&'a Witness>
        // The monitor belongs to `board`.
        requires board { IsOn board.now self.old }
        // The monitor still belongs to `board`.
        ensures board { IsOn board.now self.new }
        // The monitor keeps its caller.
        ensures caller { caller_of self.new ≡ caller_of self.old }
        // The monitor's own witness, `placed`, and the book that the monitor keeps stay as they are.
        ensures findings { (own_of self.new ≡ own_of self.old)
            × (placed_by self.new ≡ placed_by self.old) × (kept_by self.new ≡ kept_by self.old) }
        // Where no witness is answered, the monitor knows none, before and after.
        ensures none { IfNone result ((known_by self.old ≡ None) × (known_by self.new ≡ None)) }
        // A witness that is answered is known from then on, and is the one that was known before,
        // where one was.
        ensures some { IfSome result
            (λ r. (known_by self.new ≡ Some r.now) × Agrees (known_by self.old) r.now) }
        // Where `placed` is true, the answer is the own witness.
        ensures placed { placed_by self.old ≡ true
            → IsSomeAnd result (λ r. own_of self.old ≡ Some r.now) }
    {
        self.claim.known(board)
    }

    /// Where both monitors know a witness on their board, they know the same one. It takes no
    /// memory.
    pub fn agree(&mut self, other: &mut Monitor<P>)
        // Both monitors belong to one board.
        requires { AreOfOne self.old other.old }
        // Both monitors stay as they are.
        ensures same { (self.new ≡ self.old) × (other.new ≡ other.old) }
        // Where both monitors know a witness on their board, they know the same one.
        ensures agree { Agree (known_by self.new) (known_by other.new) }
    {
        self.claim.agree(&mut other.claim);
    }

    /// The monitor's caller, with its local as it is.
    pub fn leave(self) -> Caller<P>
        ensures { result ≡ caller_of self }
    {
        let (caller, _, _) = self.into_parts();
        caller
    }

    /// The monitor's caller, its own witness, and `placed`.
    pub(crate) fn into_parts(self) -> (Caller<P>, Option<Witness>, bool)
        ensures parts { (result.0 ≡ caller_of self) × (result.1 ≡ own_of self)
            × (result.2 ≡ placed_by self) }
        ensures found { result.2 ≡ true → is_some result.1 ≡ true }
    {
        let Monitor {
            caller,
            gathered: _,
            claim,
        } = self;
        let (own, placed) = claim.into_parts();
        (caller, own, placed)
    }
}
