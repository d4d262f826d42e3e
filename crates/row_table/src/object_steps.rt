ghost use Rattle.std.specs.Prelude.{◌≡◌, ◌≢◌, ℕ, ◌+◌, ◌%◌, ◌<◌, ◌^◌, ◌==◌, IsTrue, None, IfOk, IfErr};
ghost use prog.Atomic.{either};
ghost use Rattle.world_core.specs.Local as local;
ghost use Rattle.world_core.specs.Event as event;
ghost use Rattle.row_table.specs.Actions.{object_step};
ghost use Rattle.row_table.specs.Found.{found_by};

use crate::action::Action;
use crate::caller::Caller;
use crate::layout::row_words;
use crate::rows::Rows;
use std::marker::Brand;
use world_core::InWorld;

impl<P: InWorld> Rows<P> {
    ghost use Rattle.row_table.specs.Callers.{who_of, local_with, stance_of, IsCallerOf, IsStill, HasDone};
    ghost use Rattle.row_table.specs.ObjectSteps.{IsAsking, MayStep};

    /// Loads an object word, which is one object step that doesn't change the word.
    ///
    /// The caller has announced its call and keeps no reply yet, and its program allows the step
    /// whatever word is found.
    pub fn object_load(&self, caller: &mut Caller<P>, place: u64) -> u64
        // The caller belongs to this table, has announced its call, and keeps no reply of the
        // object yet.
        requires caller { IsCallerOf P.meaning self.now caller.old × IsAsking caller.old }
        // The table has an object word at this place.
        requires place { place < self.now.objects }
        // The program allows the caller a step that leaves the word at this place as it is,
        // whatever word it finds.
        requires program { MayStep P.meaning self.now caller.old place (λ x. x) }
        // The caller still belongs to this table, and keeps its number.
        ensures caller { IsStill P.meaning self.now caller.old caller.new }
        // The caller's local is the one before, changed by one object step, which found the
        // answered word and left it there.
        ensures event { HasDone self.now caller.old caller.new (object_step place result result) }
        // The caller's stance stays.
        ensures stance { stance_of caller.new ≡ stance_of caller.old }
    {
        let index = row_words(self.callers, self.cap) + place as usize;
        self.load_as::<Brand>(&mut caller.seat, Action::Load(place), index)
    }

    /// Stores a word into an object word, which is one object step. The word that was found isn't
    /// answered.
    pub fn object_store(&self, caller: &mut Caller<P>, place: u64, word: u64)
        // The caller belongs to this table, has announced its call, and keeps no reply of the
        // object yet.
        requires caller { IsCallerOf P.meaning self.now caller.old × IsAsking caller.old }
        // The table has an object word at this place.
        requires place { place < self.now.objects }
        // The program allows the caller a step that stores this word at this place, whatever word
        // it finds.
        requires program { MayStep P.meaning self.now caller.old place (λ _. word) }
        // The caller still belongs to this table, and keeps its number.
        ensures caller { IsStill P.meaning self.now caller.old caller.new }
        // The caller's local is the one before, changed by one object step, which found some word
        // and left the stored one.
        ensures event { (x : ℕ) × (x < 2 ^ 64)
            × (HasDone self.now caller.old caller.new (object_step place x word)) }
        // The caller's stance stays.
        ensures stance { stance_of caller.new ≡ stance_of caller.old }
    {
        let index = row_words(self.callers, self.cap) + place as usize;
        self.store_as::<Brand>(&mut caller.seat, Action::Store(place, word), index, word)
    }

    /// Adds to an object word, modulo 2^64, which is one object step. It answers the word that it
    /// found.
    pub fn object_add(&self, caller: &mut Caller<P>, place: u64, add: u64) -> u64
        // The caller belongs to this table, has announced its call, and keeps no reply of the
        // object yet.
        requires caller { IsCallerOf P.meaning self.now caller.old × IsAsking caller.old }
        // The table has an object word at this place.
        requires place { place < self.now.objects }
        // The program allows the caller a step that adds this number, modulo 2^64, to the word at
        // this place, whatever word it finds.
        requires program { MayStep P.meaning self.now caller.old place (λ x. (x + add) % 2 ^ 64) }
        // The caller still belongs to this table, and keeps its number.
        ensures caller { IsStill P.meaning self.now caller.old caller.new }
        // The caller's local is the one before, changed by one object step, which found the
        // answered word and left the sum modulo 2^64.
        ensures event { HasDone self.now caller.old caller.new
            (object_step place result ((result + add) % 2 ^ 64)) }
        // The caller's stance stays.
        ensures stance { stance_of caller.new ≡ stance_of caller.old }
    {
        let index = row_words(self.callers, self.cap) + place as usize;
        self.add_as::<Brand>(&mut caller.seat, Action::Add(place, add), index, add)
    }

    /// Puts `new` into an object word where it finds `old` there, which is one object step. It
    /// answers the word that it found: Ok exactly where that was `old`.
    pub fn object_exchange(
        &self,
        caller: &mut Caller<P>,
        place: u64,
        old: u64,
        new: u64,
    ) -> Result<u64, u64>
        // The caller belongs to this table, has announced its call, and keeps no reply of the
        // object yet.
        requires caller { IsCallerOf P.meaning self.now caller.old × IsAsking caller.old }
        // The table has an object word at this place.
        requires place { place < self.now.objects }
        // The program allows the caller a step that puts `new` over `old` at this place, and leaves
        // any other word that it finds as it is.
        requires program { MayStep P.meaning self.now caller.old place
            (λ x. either (x == old) new x) }
        // The caller still belongs to this table, and keeps its number.
        ensures caller { IsStill P.meaning self.now caller.old caller.new }
        // The caller's local is the one before, changed by one object step, which found the
        // answered word; it left `new` where that word is `old`, and otherwise the found word.
        ensures event { HasDone self.now caller.old caller.new (object_step place (found_by result)
            (either (found_by result == old) new (found_by result))) }
        // The caller's stance stays.
        ensures stance { stance_of caller.new ≡ stance_of caller.old }
        // An answer Ok has the word `old`.
        ensures won { IfOk result (λ x. x ≡ old) }
        // An answer Err has a word other than `old`.
        ensures lost { IfErr result (λ x. x ≢ old) }
    {
        let index = row_words(self.callers, self.cap) + place as usize;
        let action = Action::Exchange(place, old, new);
        let found = self.exchange_as::<Brand>(&mut caller.seat, action, index, old, new);
        if found == old { Ok(found) } else { Err(found) }
    }
}
