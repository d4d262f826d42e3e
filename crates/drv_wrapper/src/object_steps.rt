ghost use Rattle.std.specs.Prelude.{◌≡◌, ◌≢◌, ℕ, ◌+◌, ◌%◌, ◌<◌, ◌^◌, ◌==◌, IfOk, IfErr};
ghost use prog.Atomic.{either};
ghost use Rattle.row_table.specs.Found.{found_by};
ghost use Rattle.row_table.specs.Callers.{IsCallerOf};
ghost use Rattle.row_table.specs.ObjectSteps.{MayStep};
ghost use Rattle.drv_wrapper.specs.States.{caller_announced};
ghost use Rattle.drv_wrapper.specs.ObjectSteps.{HasStepped};

use crate::announced::Announced;
use row_table::Rows;
use world_core::InWorld;

/// The steps of an object that is inside the world: they are made by its callers, each in the midst
/// of an announced call of its own.
impl<P: InWorld> Announced<P> {
    /// Loads an object word, which is one object step that doesn't change the word.
    ///
    /// The program has to allow the caller this step whatever word is found.
    pub fn object_load(&mut self, rows: &Rows<P>, place: u64) -> u64
        // The caller belongs to this table.
        requires rows { IsCallerOf P.meaning rows.now (caller_announced self.old) }
        // The table has an object word at this place.
        requires place { place < rows.now.objects }
        // The program allows the caller a step that leaves the word at this place as it is,
        // whatever word it finds.
        requires program { MayStep P.meaning rows.now (caller_announced self.old) place (λ x. x) }
        // The announced call has made one object step more, which found the answered word and left
        // it there.
        ensures { HasStepped P.meaning rows.now self.old self.new
            (record { place = place; old = result; new = result }) }
    {
        rows.object_load(&mut self.caller, place)
    }

    /// Stores a word into an object word, which is one object step. The word that was found isn't
    /// answered.
    pub fn object_store(&mut self, rows: &Rows<P>, place: u64, word: u64)
        // The caller belongs to this table.
        requires rows { IsCallerOf P.meaning rows.now (caller_announced self.old) }
        // The table has an object word at this place.
        requires place { place < rows.now.objects }
        // The program allows the caller a step that stores this word at this place, whatever word
        // it finds.
        requires program { MayStep P.meaning rows.now (caller_announced self.old) place
            (λ _. word) }
        // The announced call has made one object step more, which found some word and left the
        // stored one.
        ensures { (x : ℕ) × (x < 2 ^ 64) × HasStepped P.meaning rows.now self.old self.new
            (record { place = place; old = x; new = word }) }
    {
        rows.object_store(&mut self.caller, place, word);
    }

    /// Adds to an object word, modulo 2^64, which is one object step. It answers the word that it
    /// found.
    pub fn object_add(&mut self, rows: &Rows<P>, place: u64, add: u64) -> u64
        // The caller belongs to this table.
        requires rows { IsCallerOf P.meaning rows.now (caller_announced self.old) }
        // The table has an object word at this place.
        requires place { place < rows.now.objects }
        // The program allows the caller a step that adds this number, modulo 2^64, to the word at
        // this place, whatever word it finds.
        requires program { MayStep P.meaning rows.now (caller_announced self.old) place
            (λ x. (x + add) % 2 ^ 64) }
        // The announced call has made one object step more, which found the answered word and left
        // the sum modulo 2^64.
        ensures { HasStepped P.meaning rows.now self.old self.new
            (record { place = place; old = result; new = (result + add) % 2 ^ 64 }) }
    {
        rows.object_add(&mut self.caller, place, add)
    }

    /// Puts `new` into an object word where it finds `old` there, which is one object step. It
    /// answers the word that it found: Ok exactly where that was `old`.
    pub fn object_exchange(
        &mut self,
        rows: &Rows<P>,
        place: u64,
        old: u64,
        new: u64,
    ) -> Result<u64, u64>
        // The caller belongs to this table.
        requires rows { IsCallerOf P.meaning rows.now (caller_announced self.old) }
        // The table has an object word at this place.
        requires place { place < rows.now.objects }
        // The program allows the caller a step that puts `new` over `old` at this place, and leaves
        // any other word that it finds as it is.
        requires program { MayStep P.meaning rows.now (caller_announced self.old) place
            (λ x. either (x == old) new x) }
        // The announced call has made one object step more, which found the answered word; it left
        // `new` where that word is `old`, and otherwise the found word.
        ensures stepped { HasStepped P.meaning rows.now self.old self.new (record {
          place = place;
          old = found_by result;
          new = either (found_by result == old) new (found_by result);
        }) }
        // An answer Ok has the word `old`.
        ensures won { IfOk result (λ x. x ≡ old) }
        // An answer Err has a word other than `old`.
        ensures lost { IfErr result (λ x. x ≢ old) }
    {
        rows.object_exchange(&mut self.caller, place, old, new)
    }
}
