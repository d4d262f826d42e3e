ghost use Rattle.std.specs.Prelude.{◌≡◌, ℕ, ◌+◌, ◌<◌, ◌≤◌, ◌^◌, IsTrue};
ghost use Rattle.world_core.specs.declared.region.Region.{Region};
ghost use Rattle.world_core.specs.Layout.{places};
ghost use Rattle.world_core.specs.Local as local;
ghost use Rattle.world_core.specs.Event as event;
ghost use Rattle.row_table.specs.Stances.{FitsRegion, looked};

use crate::action::Action;
use crate::caller::Caller;
use crate::layout::{count_index, place_index};
use crate::rows::Rows;
use crate::steps::Steps;
use std::marker::Brand;
use std::sync::ledger::Ledger;
use world_core::{Program, Region};

impl<P: Program> Rows<P> {
    ghost use Rattle.row_table.specs.Callers.{shape_of, who_of, local_with, stance_of, opening_of, IsCallerOf, IsStill, HasDone, MayBegin, MayStage};

    /// Loads the count of caller `j` in a region, which is one look. Where the caller means to
    /// begin a scan, the look begins it; it is the view's scan where the region is N and the caller
    /// keeps a reply.
    pub fn look<L: Ledger>(
        &self,
        caller: &mut Caller<P>,
        region: Region,
        j: u32,
        steps: &mut Steps<L>,
    ) -> u64
        // The caller belongs to this table.
        requires caller { IsCallerOf P.meaning self.now caller.old }
        // The table has a caller `j`.
        requires counted { j < self.now.callers }
        // The region is the one of the scan that the caller means to begin, if it means to begin
        // one.
        requires region { FitsRegion (stance_of caller.old).begins region }
        // By a look at this count the caller may begin what it means to begin.
        requires begins { MayBegin P.meaning self.now caller.old region j }
        // The caller still belongs to this table, and keeps its number.
        ensures caller { IsStill P.meaning self.now caller.old caller.new }
        // The caller's local is the one before, changed by one look, which found the answered count
        // and began what the caller meant to begin.
        ensures event { HasDone self.now caller.old caller.new
            (event.Look region j result (opening_of caller.old)) }
        // The caller means to begin no scan any more, and keeps no reply that the look carried.
        ensures stance { stance_of caller.new ≡ looked (stance_of caller.old) }
        // The counter of steps has risen by 1.
        ensures tick { steps.new ≡ steps.old + 1 }
    {
        let opening = caller.stance.opening();
        let index = count_index(self.callers, region, j);
        let action = Action::Look(region, j, opening);
        let word = self.load_as::<Brand>(&mut caller.seat, action, index);
        caller
            .notes
            .look(self.callers, caller.seat.who, region, j, opening, word);
        caller.stance.look();
        steps.tick();
        word
    }

    /// Loads the word at a place of row `row` of caller `j`, which is one peek. The caller knows of
    /// the row: from a count that it looked at, from a cut that a scan gave it, or from a view that
    /// it peeked.
    pub fn peek<L: Ledger>(
        &self,
        caller: &mut Caller<P>,
        region: Region,
        j: u32,
        row: u64,
        place: u32,
        steps: &mut Steps<L>,
    ) -> u64
        // The caller belongs to this table.
        requires caller { IsCallerOf P.meaning self.now caller.old }
        // The table has a caller `j`.
        requires caller_fits { j < self.now.callers }
        // A row has this place in this region.
        requires place_fits { place < places self.now.callers region }
        // The caller knows, by its local, that this row of caller `j` is counted in the region.
        requires known { IsTrue
            (event.knows_row self.now.callers (local_with caller.old) region j row) }
        // The caller still belongs to this table, and keeps its number.
        ensures caller { IsStill P.meaning self.now caller.old caller.new }
        // The caller's local is the one before, changed by one peek, which found the answered word
        // at that place.
        ensures event { HasDone self.now caller.old caller.new
            (event.Peek region j row place result) }
        // The caller's stance stays.
        ensures stance { stance_of caller.new ≡ stance_of caller.old }
        // The counter of steps has risen by 1.
        ensures tick { steps.new ≡ steps.old + 1 }
    {
        let index = place_index(self.callers, self.cap, region, j, row, place);
        let action = Action::Peek(region, j, row, place);
        let word = self.load_as::<Brand>(&mut caller.seat, action, index);
        caller.notes.peek(self.callers, region, j, row, place, word);
        steps.tick();
        word
    }

    /// Stores a word at a place of the caller's own row under way, in a region. The row exists, and
    /// the word is the one due at this place in the caller's phase.
    pub fn stage(&self, caller: &mut Caller<P>, region: Region, place: u32, word: u64)
        // The caller belongs to this table.
        requires caller { IsCallerOf P.meaning self.now caller.old }
        // The caller has a row under way in the region, and this word belongs at this place of it.
        requires due { MayStage P.meaning self.now caller.old region place word }
        // The caller still belongs to this table, and keeps its number.
        ensures caller { IsStill P.meaning self.now caller.old caller.new }
        // The caller's local is the one before, changed by the staging of this word at this place.
        ensures event { HasDone self.now caller.old caller.new (event.Stage region place word) }
        // The caller's stance stays.
        ensures stance { stance_of caller.new ≡ stance_of caller.old }
    {
        let row = caller.notes.count(region);
        let index = place_index(self.callers, self.cap, region, caller.seat.who, row, place);
        let action = Action::Stage(region, place, word);
        self.store_as::<Brand>(&mut caller.seat, action, index, word);
        caller.notes.stage();
    }

    /// Raises the caller's own count in N, which announces its call. All places of its row are
    /// staged.
    pub fn announce(&self, caller: &mut Caller<P>)
        // The caller belongs to this table.
        requires caller { IsCallerOf P.meaning self.now caller.old }
        // The caller's phase is announce, and all places of its row in N are staged.
        requires staged { IsTrue
            (event.is_row_staged self.now.callers (local_with caller.old) Region.N) }
        // The caller still belongs to this table, and keeps its number.
        ensures caller { IsStill P.meaning self.now caller.old caller.new }
        // The caller's local is the one before, changed by the announcement of its call.
        ensures event { HasDone self.now caller.old caller.new event.Announce }
        // The caller's stance stays.
        ensures stance { stance_of caller.new ≡ stance_of caller.old }
    {
        let index = count_index(self.callers, Region::N, caller.seat.who);
        let count = caller.notes.announced + 1;
        self.store_as::<Brand>(&mut caller.seat, Action::Announce, index, count);
        caller.notes.announce();
    }

    /// Raises the caller's own count in M, which publishes its record. All places of its row are
    /// staged.
    pub fn publish(&self, caller: &mut Caller<P>)
        // The caller belongs to this table.
        requires caller { IsCallerOf P.meaning self.now caller.old }
        // The caller's phase is publish, and all places of its row in M are staged.
        requires staged { IsTrue
            (event.is_row_staged self.now.callers (local_with caller.old) Region.M) }
        // The caller still belongs to this table, and keeps its number.
        ensures caller { IsStill P.meaning self.now caller.old caller.new }
        // The caller's local is the one before, changed by the publication of its record.
        ensures event { HasDone self.now caller.old caller.new event.Publish }
        // The caller's stance stays.
        ensures stance { stance_of caller.new ≡ stance_of caller.old }
    {
        let index = count_index(self.callers, Region::M, caller.seat.who);
        let count = caller.notes.published + 1;
        self.store_as::<Brand>(&mut caller.seat, Action::Publish, index, count);
        caller.notes.publish();
    }
}
