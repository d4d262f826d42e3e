//! Atomic words that callers share: with each access a caller's seat learns the history up to this
//! access.
ghost use Rattle.std.specs.Prelude.{◌≡◌, ℕ, ◌<◌, ◌≤◌, [], ◌∷◌, ◌++◌, List, None, Some, IfOk, All, map, length, vec_len, vec_capacity, slice_set};
ghost use Rattle.std.specs.List.{range_with_len};
ghost use Rattle.book_base.specs.declared.TheConstants.{MAX_CALLERS, MAX_CALLS};
ghost use Rattle.row_table.specs.Holders.{has, whole};
ghost use Rattle.shared_words.specs.Deeds as deeds;
ghost use Rattle.shared_words.specs.Histories.{Access, IsAfterAccess};

use crate::plays::{Adds, Histories, Key, Loads, OneHistory, Stores, Swaps};
use crate::usage::Usage;
use crate::word_seat::WordSeat;
use crate::words_pass::WordsPass;
use atomic_table::{Seat, Table};
use book_base::{MAX_CALLERS, MAX_CALLS, NoMemory, OpWord};
use row_table::{Held, Leaves, Part, Returns};
use std::alloc::{AllocError, Global};
use std::marker::Brand;

/// Atomic words that some callers share. Each word is 0 at first.
///
/// There is one history of all accesses, in the order in which they were made, whatever the threads
/// do: each access found the word that those before it leave.
#[derive(Drop)]
pub struct SharedWords<U: Usage> {
    pub(crate) table: Table<(), Held<Histories>, Key, OneHistory<U>, Global>,
    pub(crate) callers: u32,
    pub(crate) cap: u64,
    ghost sized: { (0 < table.shared.table_id.words) × (table.shared.table_id.slots ≡ 0)
        × (table.shared.key.callers ≡ callers)
        × (table.shared.key.count ≡ table.shared.table_id.words) },
    ghost few: { (callers ≤ MAX_CALLERS) × (cap ≤ MAX_CALLS) },
}

// For each of `n` callers an empty list of pairs with capacity for `cap` calls.
fn empty_pairs(alloc: Global, n: u32, cap: u64) -> Result<Vec<Vec<(OpWord, u64)>>, AllocError>
    requires { cap ≤ MAX_CALLS }
    ensures count { IfOk result (λ all. vec_len all ≡ n) }
    ensures empty { IfOk result (λ all. All
        (λ pairs. (pairs.items ≡ []) × (cap ≤ vec_capacity pairs)) all.items) }
{
    let mut all = Vec::with_capacity(alloc, n as usize)?;
    for _caller in 0..n {
        all.push(Vec::with_capacity(alloc, cap as usize)?)?;
    }
    Ok(all)
}

impl<U: Usage> SharedWords<U> {
    ghost use Rattle.shared_words.specs.Passes.{caller_of_seat, history_of, deeds_of, callers_of, cap_of, count_of, caller_of_pass, history_in, seat_in, IsSeatOf, IsNewPass, IsOneHistory};

    /// How many callers the words have.
    pub fn callers(&self) -> u32
        // The answer is the number of callers of these words.
        ensures count { result ≡ callers_of self.now }
        // There are at most `MAX_CALLERS` callers.
        ensures few { result ≤ MAX_CALLERS }
    {
        self.callers
    }

    /// How many calls each caller may make.
    pub fn cap(&self) -> u64
        // The answer is the cap of these words.
        ensures count { result ≡ cap_of self.now }
        // The cap is at most `MAX_CALLS`.
        ensures few { result ≤ MAX_CALLS }
    {
        self.cap
    }

    /// Adds to the word at this place, modulo 2^64, and returns the word that it found.
    pub fn add(&self, seat: &mut WordSeat, place: usize, amount: u64) -> u64
        // The seat belongs to these words.
        requires seat { IsSeatOf U.may self.now seat.old }
        // There is a word at this place.
        requires place { place < count_of self.now }
        // The caller may make this addition, whatever word it finds.
        requires may { (found : ℕ)
            → U.may (caller_of_seat seat.old) (deeds.Added place amount found) }
        // The seat still belongs to these words.
        ensures seat { IsSeatOf U.may self.now seat.new }
        // The seat keeps its caller.
        ensures caller { caller_of_seat seat.new ≡ caller_of_seat seat.old }
        // The caller's deeds are those before the call, and then this addition, which found the
        // returned word.
        ensures step { deeds_of seat.new
            ≡ deeds_of seat.old ++ deeds.Added place amount result ∷ [] }
        // The history that the seat knows begins with the one that it knew before, ends with this
        // access, and has no other new access of the caller.
        ensures history { IsAfterAccess (caller_of_seat seat.old) (deeds.Added place amount result)
            (history_of seat.old) (history_of seat.new) }
    {
        self.table
            .shared
            .fetch_add::<Adds<U>>(&mut seat.seat, place, amount)
    }

    /// Stores a word into the word at this place.
    pub fn store(&self, seat: &mut WordSeat, place: usize, word: u64)
        // The seat belongs to these words.
        requires seat { IsSeatOf U.may self.now seat.old }
        // There is a word at this place.
        requires place { place < count_of self.now }
        // The caller may make this store.
        requires may { U.may (caller_of_seat seat.old) (deeds.Stored place word) }
        // The seat still belongs to these words.
        ensures seat { IsSeatOf U.may self.now seat.new }
        // The seat keeps its caller.
        ensures caller { caller_of_seat seat.new ≡ caller_of_seat seat.old }
        // The caller's deeds are those before the call, and then this store.
        ensures step { deeds_of seat.new ≡ deeds_of seat.old ++ deeds.Stored place word ∷ [] }
        // The history that the seat knows begins with the one that it knew before, ends with this
        // access, and has no other new access of the caller.
        ensures history { IsAfterAccess (caller_of_seat seat.old) (deeds.Stored place word)
            (history_of seat.old) (history_of seat.new) }
    {
        self.table
            .shared
            .store::<Stores<U>>(&mut seat.seat, place, word)
    }

    /// Loads the word at this place, and returns it.
    pub fn load(&self, seat: &mut WordSeat, place: usize) -> u64
        // The seat belongs to these words.
        requires seat { IsSeatOf U.may self.now seat.old }
        // There is a word at this place.
        requires place { place < count_of self.now }
        // The caller may make this load, whatever word it finds.
        requires may { (found : ℕ) → U.may (caller_of_seat seat.old) (deeds.Loaded place found) }
        // The seat still belongs to these words.
        ensures seat { IsSeatOf U.may self.now seat.new }
        // The seat keeps its caller.
        ensures caller { caller_of_seat seat.new ≡ caller_of_seat seat.old }
        // The caller's deeds are those before the call, and then this load, which found the
        // returned word.
        ensures step { deeds_of seat.new ≡ deeds_of seat.old ++ deeds.Loaded place result ∷ [] }
        // The history that the seat knows begins with the one that it knew before, ends with this
        // access, and has no other new access of the caller.
        ensures history { IsAfterAccess (caller_of_seat seat.old) (deeds.Loaded place result)
            (history_of seat.old) (history_of seat.new) }
    {
        self.table.shared.load::<Loads<U>>(&mut seat.seat, place)
    }

    /// Swaps the word at this place for another one, and returns the word that it found.
    pub fn swap(&self, seat: &mut WordSeat, place: usize, word: u64) -> u64
        // The seat belongs to these words.
        requires seat { IsSeatOf U.may self.now seat.old }
        // There is a word at this place.
        requires place { place < count_of self.now }
        // The caller may make this swap, whatever word it finds.
        requires may { (found : ℕ)
            → U.may (caller_of_seat seat.old) (deeds.Swapped place word found) }
        // The seat still belongs to these words.
        ensures seat { IsSeatOf U.may self.now seat.new }
        // The seat keeps its caller.
        ensures caller { caller_of_seat seat.new ≡ caller_of_seat seat.old }
        // The caller's deeds are those before the call, and then this swap, which found the
        // returned word.
        ensures step { deeds_of seat.new
            ≡ deeds_of seat.old ++ deeds.Swapped place word result ∷ [] }
        // The history that the seat knows begins with the one that it knew before, ends with this
        // access, and has no other new access of the caller.
        ensures history { IsAfterAccess (caller_of_seat seat.old) (deeds.Swapped place word result)
            (history_of seat.old) (history_of seat.new) }
    {
        self.table
            .shared
            .swap::<Swaps<U>>(&mut seat.seat, place, word)
    }

    // Gives a caller a seat of its own.
    fn leave_as<J: Part>(&self, seat: &mut Seat<(), Held<Histories>>, who: u32) -> WordSeat
        requires who { J.who ≡ who }
        requires seat { seat.old.table_id ≡ self.now.table.shared.table_id }
        requires here { has seat.old.me.0 who ≡ Some [] }
        ensures seat { (seat.new.table_id ≡ seat.old.table_id)
            × (seat.new.me.0 ≡ slice_set seat.old.me.0 who None) }
        ensures caller { (result.who ≡ who) × (result.seat.table_id ≡ seat.old.table_id)
            × (history_of result ≡ []) }
    {
        let seat = self.table.shared.split_seat::<Leaves<J>>(seat);
        WordSeat { who, seat }
    }

    // Makes a pass for each caller, with a seat of its own.
    fn deal(
        &self,
        mut seat: Seat<(), Held<Histories>>,
        mut rooms: Vec<Vec<(OpWord, u64)>>,
        mut passes: Vec<WordsPass>,
    ) -> Vec<WordsPass>
        requires seat { (seat.table_id ≡ self.now.table.shared.table_id)
            × (seat.me.0 ≡ whole self.now.callers []) }
        requires rooms { (vec_len rooms ≡ self.now.callers) × All
            (λ pairs. (pairs.items ≡ []) × (self.now.cap ≤ vec_capacity pairs)) rooms.items }
        requires passes { (passes.items ≡ []) × (self.now.callers ≤ vec_capacity passes) }
        ensures callers { map caller_of_pass result.items ≡ range_with_len 0 self.now.callers }
        ensures new { All (IsNewPass self.now) result.items }
    {
        for caller in 0..self.callers {
            let Some(pairs) = rooms.pop() else {
                unreachable!()
            };
            let own = self.leave_as::<Brand>(&mut seat, caller);
            let pass = WordsPass {
                cap: self.cap,
                pairs,
                seat: own,
            };
            passes.push(pass).unwrap();
        }
        passes
    }

    /// Opens `count` words for `n` callers with `cap` calls each, with a pass for each caller, in
    /// order.
    pub fn open(
        alloc: Global,
        n: u32,
        cap: u64,
        count: usize,
    ) -> Result<(SharedWords<U>, Vec<WordsPass>), NoMemory>
        // There are at most `MAX_CALLERS` callers.
        requires few_callers { n ≤ MAX_CALLERS }
        // Each caller has at most `MAX_CALLS` calls.
        requires few_calls { cap ≤ MAX_CALLS }
        // There is at least one word.
        requires some_words { 0 < count }
        // The words are for `n` callers with `cap` calls each, and there are `count` words.
        ensures words { IfOk result (λ r.
            (callers_of r.0 ≡ n) × (cap_of r.0 ≡ cap) × (count_of r.0 ≡ count)) }
        // The passes are those of the callers, in order.
        ensures callers { IfOk result (λ r. map caller_of_pass r.1.items ≡ range_with_len 0 n) }
        // Each pass belongs to these words, may make as many calls as their cap says, has capacity
        // for all of them, and is new: it has no call and knows of no access.
        ensures new { IfOk result (λ r. All (IsNewPass r.0) r.1.items) }
    {
        let rooms = empty_pairs(alloc, n, cap)?;
        let zeros = Vec::from_elem(alloc, 0u64, count)?;
        let key = Key { callers: n, count };
        let (table, seat) = Table::of_words(alloc, zeros.as_slice(), &key)?;
        let passes = Vec::with_capacity(alloc, n as usize)?;
        let words = SharedWords {
            table,
            callers: n,
            cap,
        };
        let passes = words.deal(seat, rooms, passes);
        Ok((words, passes))
    }

    // Takes back the seat of a pass: what it knew goes to the seat `keeper`.
    fn take_in(&self, keeper: &mut Seat<(), Held<Histories>>, pass: WordsPass)
        requires keeper { keeper.old.table_id ≡ self.now.table.shared.table_id }
        requires seat { IsSeatOf U.may self.now (seat_in pass) }
        requires gone { has keeper.old.me.0 (caller_of_pass pass) ≡ None }
        requires wide { caller_of_pass pass < length keeper.old.me.0 }
        ensures table { keeper.new.table_id ≡ keeper.old.table_id }
        ensures keeper { keeper.new.me.0
            ≡ slice_set keeper.old.me.0 (caller_of_pass pass) (Some (history_in pass)) }
    {
        let WordsPass {
            cap: _,
            pairs: _,
            seat,
        } = pass;
        let WordSeat { who: _, seat } = seat;
        self.table.shared.join_seat::<Returns>(keeper, seat);
    }

    /// Takes the passes of all callers back, in order, and drops the words. All accesses are one
    /// history, of which each pass knows a prefix, with all deeds of its caller.
    pub fn close(self, mut passes: Vec<WordsPass>)
        // The passes are those of all callers, in order.
        requires callers { map caller_of_pass passes.items ≡ range_with_len 0 (callers_of self) }
        // The seat of each pass belongs to these words.
        requires seats { All (λ p. IsSeatOf U.may self (seat_in p)) passes.items }
        // There is one lawful history of all accesses, and each pass knows a prefix of it that has
        // all deeds of its caller.
        ensures history { (history : List Access)
            × IsOneHistory U.may (callers_of self) history passes.items }
    {
        let Some(last) = passes.pop() else {
            return;
        };
        let WordsPass {
            cap: _,
            pairs: _,
            seat,
        } = last;
        let WordSeat {
            who: _,
            seat: mut keeper,
        } = seat;
        while let Some(pass) = passes.pop() {
            self.take_in(&mut keeper, pass);
        }
        let SharedWords {
            table,
            callers: _,
            cap: _,
        } = self;
        table.close_with(keeper).free();
    }
}
