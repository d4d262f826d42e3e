//! The steps of a caller on the table of a log.
ghost use Rattle.std.specs.Prelude.{◌≡◌, ◌≢◌, ℕ, ◌+◌, ◌*◌, ◌<◌, ◌≤◌, List, [], ◌∷◌, ◌++◌, length};
ghost use Rattle.shared_words.specs.declared.entry.Entry.{Entry as Item};
ghost use Rattle.book_base.specs.OperationWord.{low_of, high_of};
ghost use Rattle.shared_words.specs.Entries.{calls_by};
ghost use Rattle.shared_words.specs.Words as words;
ghost use Rattle.shared_words.specs.Hands as hands;
ghost use Rattle.shared_words.specs.LogRule.{Stages, Looks, Places, Tries, Reads, Finds};

use crate::entry::Entry;
use crate::layout::place_count;
use crate::log_plays::{LogStep, Look, Place, Read, Stage};
use crate::seat::OneSeat;
use crate::shared_log::SharedLog;
use book_base::{OpWord, high, join, low};
use std::marker::Brand;

impl SharedLog {
    ghost use Rattle.shared_words.specs.Seats.{hand_with, IsPlaced};

    // Stores one more word of the caller's next operation.
    fn stage_as<J: LogStep>(&self, seat: &mut OneSeat, index: usize, word: u64)
        requires seat { IsPlaced self.now seat.old }
        requires part { (J.callers ≡ self.now.callers) × (J.cap ≡ self.now.cap)
            × (J.who ≡ seat.old.who) }
        requires call { length (calls_by seat.old.who (hand_with seat.old).log) < self.now.cap }
        requires few { length (hand_with seat.old).staged < 2 }
        requires index { index ≡ words.operation_index
            (hands.next_number self.now.cap seat.old.who (hand_with seat.old))
            + length (hand_with seat.old).staged }
        ensures seat { IsPlaced self.now seat.new × (seat.new.who ≡ seat.old.who) }
        ensures hand { Stages word (hand_with seat.old) (hand_with seat.new) }
    {
        self.table
            .shared
            .store::<Stage<J>>(&mut seat.seat, index, word)
    }

    // Loads the ticket at the first place of the log that the caller doesn't know.
    fn look_as<J: LogStep>(&self, seat: &mut OneSeat, index: usize) -> u64
        requires seat { IsPlaced self.now seat.old }
        requires part { (J.callers ≡ self.now.callers) × (J.cap ≡ self.now.cap)
            × (J.who ≡ seat.old.who) }
        requires place { length (hand_with seat.old).log < self.now.callers * self.now.cap }
        requires index { index ≡ words.ticket_index self.now.callers self.now.cap
            (length (hand_with seat.old).log) }
        ensures seat { IsPlaced self.now seat.new × (seat.new.who ≡ seat.old.who) }
        ensures hand { Looks self.now.callers self.now.cap seat.old.who result (hand_with seat.old)
            (hand_with seat.new) }
    {
        self.table.shared.load::<Look<J>>(&mut seat.seat, index)
    }

    // Puts the ticket of the caller's next call at the first place of the log that the caller
    // doesn't know, where this place is free. Returns the ticket that was found there: 0 for a free
    // place.
    fn place_as<J: LogStep>(&self, seat: &mut OneSeat, index: usize, ticket: u64, op: OpWord) -> u64
        requires seat { IsPlaced self.now seat.old }
        requires part { (J.callers ≡ self.now.callers) × (J.cap ≡ self.now.cap)
            × (J.who ≡ seat.old.who) }
        requires call { length (calls_by seat.old.who (hand_with seat.old).log) < self.now.cap }
        requires staged { (hand_with seat.old).staged ≡ low_of op ∷ high_of op ∷ [] }
        requires place { length (hand_with seat.old).log < self.now.callers * self.now.cap }
        requires index { index ≡ words.ticket_index self.now.callers self.now.cap
            (length (hand_with seat.old).log) }
        requires ticket { ticket ≡ hands.next_number self.now.cap seat.old.who
            (hand_with seat.old) + 1 }
        ensures seat { IsPlaced self.now seat.new × (seat.new.who ≡ seat.old.who) }
        ensures hand { Places self.now.callers self.now.cap seat.old.who index result
            (hand_with seat.old) (hand_with seat.new) }
    {
        self.table
            .shared
            .compare_exchange::<Place<J>>(&mut seat.seat, index, 0, ticket)
    }

    // Loads a word of the operation of a call.
    fn read_as<J: LogStep>(&self, seat: &mut OneSeat, index: usize) -> u64
        requires seat { IsPlaced self.now seat.old }
        requires part { (J.callers ≡ self.now.callers) × (J.cap ≡ self.now.cap)
            × (J.who ≡ seat.old.who) }
        requires index { index < 2 * (self.now.callers * self.now.cap) }
        ensures seat { IsPlaced self.now seat.new × (seat.new.who ≡ seat.old.who) }
        ensures hand { Reads self.now.cap index result (hand_with seat.old) (hand_with seat.new) }
    {
        self.table.shared.load::<Read<J>>(&mut seat.seat, index)
    }

    // Stores both words of the caller's next operation.
    pub(crate) fn stage(&self, seat: &mut OneSeat, number: u64, op: OpWord)
        requires seat { IsPlaced self.now seat.old }
        requires number { number ≡ hands.next_number self.now.cap seat.old.who
            (hand_with seat.old) }
        requires call { length (calls_by seat.old.who (hand_with seat.old).log) < self.now.cap }
        requires none { (hand_with seat.old).staged ≡ [] }
        ensures seat { IsPlaced self.now seat.new × (seat.new.who ≡ seat.old.who) }
        ensures hand { hand_with seat.new ≡ hands.hand (hand_with seat.old).log
            (low_of op ∷ high_of op ∷ []) (hand_with seat.old).tried }
    {
        let index = 2 * number as usize;
        self.stage_as::<Brand>(seat, index, low(op));
        self.stage_as::<Brand>(seat, index + 1, high(op));
    }

    // Loads the ticket at the first place of the log that the caller doesn't know, and where the
    // place is free, tries to exchange 0 for the caller's own ticket there. Returns 0 where the own
    // ticket is placed, and otherwise the ticket that was found.
    #[tactic(auto, using(crate::proofs::Trying::looked, crate::proofs::Trying::exchanged))]
    fn ticket_at(&self, seat: &mut OneSeat, place: usize, ticket: u64, op: OpWord) -> u64
        requires seat { IsPlaced self.now seat.old }
        requires call { length (calls_by seat.old.who (hand_with seat.old).log) < self.now.cap }
        requires staged { (hand_with seat.old).staged ≡ low_of op ∷ high_of op ∷ [] }
        requires place { place ≡ length (hand_with seat.old).log }
        requires room { place < self.now.callers * self.now.cap }
        requires ticket { ticket ≡ hands.next_number self.now.cap seat.old.who
            (hand_with seat.old) + 1 }
        ensures seat { IsPlaced self.now seat.new × (seat.new.who ≡ seat.old.who) }
        ensures hand { Tries self.now.callers self.now.cap seat.old.who
            (words.ticket_index self.now.callers self.now.cap place) result (hand_with seat.old)
            (hand_with seat.new) }
    {
        let index = 2 * place_count(self.callers, self.cap) + place;
        let found = self.look_as::<Brand>(seat, index);
        if found != 0 {
            return found;
        }
        self.place_as::<Brand>(seat, index, ticket, op)
    }

    // The operation of the call with this number, which the caller knows to be in the log.
    fn operation(&self, seat: &mut OneSeat, number: u64) -> OpWord
        requires seat { IsPlaced self.now seat.old }
        requires number { number < self.now.callers * self.now.cap }
        ensures seat { IsPlaced self.now seat.new × (seat.new.who ≡ seat.old.who) }
        ensures hand { hand_with seat.new ≡ hand_with seat.old }
        ensures operation { (before rest : List Item) (e : Item) → (hand_with seat.old).log ≡ before
            ++ e ∷ rest → number ≡ words.number_after self.now.cap before e → result ≡ e.op }
    {
        let index = 2 * number as usize;
        let low = self.read_as::<Brand>(seat, index);
        let high = self.read_as::<Brand>(seat, index + 1);
        join(low, high)
    }

    // Puts the caller's own ticket at the first place of the log that the caller doesn't know,
    // where this place is free, and returns `None`. Otherwise returns the entry at this place, that
    // of another caller's call.
    pub(crate) fn next_entry(
        &self,
        seat: &mut OneSeat,
        place: usize,
        ticket: u64,
        op: OpWord,
    ) -> Option<Entry>
        requires seat { IsPlaced self.now seat.old }
        requires call { length (calls_by seat.old.who (hand_with seat.old).log) < self.now.cap }
        requires staged { (hand_with seat.old).staged ≡ low_of op ∷ high_of op ∷ [] }
        requires place { place ≡ length (hand_with seat.old).log }
        requires room { place < self.now.callers * self.now.cap }
        requires ticket { ticket ≡ hands.next_number self.now.cap seat.old.who
            (hand_with seat.old) + 1 }
        ensures seat { IsPlaced self.now seat.new × (seat.new.who ≡ seat.old.who) }
        ensures hand { Finds self.now.callers self.now.cap seat.old.who
            (words.ticket_index self.now.callers self.now.cap place) op (hand_with seat.old)
            (hand_with seat.new) result }
    {
        let found = self.ticket_at(seat, place, ticket, op);
        if found == 0 {
            return None;
        }
        let number = found - 1;
        let caller = (number / self.cap) as u32;
        let op = self.operation(seat, number);
        Some(Entry { caller, op })
    }
}
