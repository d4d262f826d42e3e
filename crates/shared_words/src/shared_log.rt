ghost use Rattle.std.specs.Prelude.{◌≡◌, ℕ, ◌+◌, ◌*◌, ◌<◌, ◌≤◌, List, [], ◌∷◌, Option, None, Some, IfOk, All, map, length, slice_set, vec_len, vec_capacity};
ghost use Rattle.book_base.specs.declared.TheConstants.{MAX_CALLERS, MAX_CALLS};
ghost use Rattle.book_base.specs.OperationWord.{low_of, high_of};
ghost use Rattle.shared_words.specs.Entries.{calls_by, IsWithinCap, IsAfterCall, IsLonger};
ghost use Rattle.shared_words.specs.Words as words;
ghost use Rattle.row_table.specs.Holders.{has, whole};
ghost use Rattle.shared_words.specs.Hands as hands;

use crate::entry::Entry;
use crate::layout::{number, place_count};
use crate::log_plays::{Hands, Key, OneLog};
use crate::seat::{LogSeat, OneSeat};
use crate::seated::Seated;
use atomic_table::{Seat, Table};
use book_base::{MAX_CALLERS, MAX_CALLS, NoMemory, OpWord};
use row_table::{Held, Leaves, Part, Returns};
use std::alloc::{AllocError, Global};
use std::marker::Brand;

/// A log of the calls of some callers, on atomic words that they share.
///
/// A call stores both words of its operation, and puts its ticket into the first free place of the
/// log. So the log is one order of all calls, whatever the threads do. No call locks or waits, and
/// only `open` takes memory.
pub struct SharedLog {
    pub(crate) table: Table<(), Held<Hands>, Key, OneLog, Global>,
    pub(crate) callers: u32,
    pub(crate) cap: u64,
    ghost sized: { (table.shared.table_id.words ≡ words.word_count callers cap)
        × (table.shared.table_id.slots ≡ 0) × (table.shared.key.callers ≡ callers)
        × (table.shared.key.cap ≡ cap) },
    ghost few: { (1 ≤ callers) × (callers ≤ MAX_CALLERS) × (1 ≤ cap) × (cap ≤ MAX_CALLS) },
}

// For each of `n` callers an empty log with capacity for `places` entries.
fn empty_logs(alloc: Global, n: u32, places: usize) -> Result<Vec<Vec<Entry>>, AllocError>
    ensures count { IfOk result (λ logs. vec_len logs ≡ n) }
    ensures empty { IfOk result
        (λ logs. All (λ log. (log.items ≡ []) × (places ≤ vec_capacity log)) logs.items) }
{
    let mut logs = Vec::with_capacity(alloc, n as usize)?;
    for _caller in 0..n {
        logs.push(Vec::with_capacity(alloc, places)?)?;
    }
    Ok(logs)
}

// The longer of two logs.
fn longer(one: Vec<Entry>, other: Vec<Entry>) -> Vec<Entry>
    ensures { IsLonger one.items other.items result.items }
{
    if one.len() < other.len() { other } else { one }
}

impl SharedLog {
    ghost use Rattle.shared_words.specs.Seats.{hand_with, hand_of, callers_of, cap_of, caller_of, log_of, made_by, IsPlaced, IsSeatOf, AreSeatsOf, HasCalled, HasExchanged, IsOneLog};

    /// How many callers the log has.
    pub fn callers(&self) -> u32
        ensures { result ≡ callers_of self.now }
    {
        self.callers
    }

    /// How many calls each caller may make.
    pub fn cap(&self) -> u64
        ensures { result ≡ cap_of self.now }
    {
        self.cap
    }

    // Puts the ticket of the call into the first free place of the log. The entries before this
    // place that the caller didn't know are added to `log`, and then the entry of the call.
    fn place(&self, seat: &mut OneSeat, log: &mut Vec<Entry>, ticket: u64, op: OpWord)
        requires seat { IsPlaced self.now seat.old }
        requires known { (hand_with seat.old).log ≡ log.old.items }
        requires staged { (hand_with seat.old).staged ≡ low_of op ∷ high_of op ∷ [] }
        requires call { length (calls_by seat.old.who log.old.items) < self.now.cap }
        requires ticket { ticket ≡ words.number_of self.now.cap seat.old.who
            (length (calls_by seat.old.who log.old.items)) + 1 }
        requires room { self.now.callers * self.now.cap ≤ vec_capacity log.old }
        requires within { IsWithinCap self.now.callers self.now.cap log.old.items }
        ensures seat { IsPlaced self.now seat.new × (seat.new.who ≡ seat.old.who) }
        ensures known { (hand_with seat.new).log ≡ log.new.items }
        ensures idle { (hand_with seat.new).staged ≡ [] }
        ensures log { IsAfterCall seat.old.who op log.old.items log.new.items }
        ensures tries { words.HasTried self.now.callers self.now.cap (length log.old.items)
            (length log.new.items) (hand_with seat.old).tried (hand_with seat.new).tried }
        ensures room { vec_capacity log.old ≤ vec_capacity log.new }
        ensures within { IsWithinCap self.now.callers self.now.cap log.new.items }
    {
        for place in log.len()..place_count(self.callers, self.cap) {
            match self.next_entry(seat, place, ticket, op) {
                None => {
                    let caller = seat.who;
                    log.push(Entry { caller, op }).unwrap();
                    return;
                }
                Some(entry) => log.push(entry).unwrap(),
            }
        }
        // The log has as many places as the callers have calls, and this call's ticket isn't in it
        // yet, so some place is free.
        unreachable!()
    }

    /// Appends a call of the seat's caller with this operation to the log.
    ///
    /// The caller makes at most one exchange at the ticket of each place, and none at places that
    /// it knew before the call. It loads the entries before its own that it doesn't know.
    pub fn append(&self, seat: &mut LogSeat, op: OpWord)
        // The seat belongs to this log.
        requires seat { IsSeatOf self.now seat.old }
        // The seat's caller has made fewer calls than it may make.
        requires call { made_by seat.old < cap_of self.now }
        // The seat still belongs to this log and has the same caller.
        ensures seat { IsSeatOf self.now seat.new × (caller_of seat.new ≡ caller_of seat.old) }
        // The log that the seat knows begins with the log that it knew before, ends with this call,
        // and has no other new entry of this caller.
        ensures log { HasCalled op seat.old seat.new }
        // The call makes at most one exchange at the ticket of each place of the log, in order, and
        // none at places that the caller knew before.
        ensures tries { HasExchanged self.now seat.old seat.new }
    {
        let number = number(self.cap, seat.seat.who, seat.made);
        self.stage(&mut seat.seat, number, op);
        self.place(&mut seat.seat, &mut seat.log, number + 1, op);
        seat.made += 1;
    }

    // Gives a caller a seat of its own.
    fn leave_as<J: Part>(&self, seat: &mut Seat<(), Held<Hands>>, who: u32) -> OneSeat
        requires who { J.who ≡ who }
        requires seat { seat.old.table_id ≡ self.now.table.shared.table_id }
        requires here { has seat.old.me.0 who ≡ Some hands.empty }
        ensures seat { (seat.new.table_id ≡ seat.old.table_id)
            × (seat.new.me.0 ≡ slice_set seat.old.me.0 who None) }
        ensures caller { (result.who ≡ who) × (result.seat.table_id ≡ seat.old.table_id)
            × (hand_with result ≡ hands.empty) }
    {
        let seat = self.table.shared.split_seat::<Leaves<J>>(seat);
        OneSeat { who, seat }
    }

    // Gives each caller a seat of its own, with an empty log.
    fn deal(
        &self,
        mut seat: Seat<(), Held<Hands>>,
        mut logs: Vec<Vec<Entry>>,
        mut seats: Vec<LogSeat>,
    ) -> Vec<LogSeat>
        requires seat { (seat.table_id ≡ self.now.table.shared.table_id)
            × (seat.me.0 ≡ whole self.now.callers hands.empty) }
        requires logs { (vec_len logs ≡ self.now.callers)
            × All (λ log. (log.items ≡ []) × (self.now.callers * self.now.cap ≤ vec_capacity log))
            logs.items }
        requires seats { (seats.items ≡ []) × (self.now.callers ≤ vec_capacity seats) }
        ensures seats { AreSeatsOf self.now result.items }
        ensures empty { All (λ s. log_of s ≡ []) result.items }
    {
        for who in 0..self.callers {
            let Some(log) = logs.pop() else {
                unreachable!()
            };
            let own = self.leave_as::<Brand>(&mut seat, who);
            let fresh = LogSeat {
                cap: self.cap,
                made: 0,
                log,
                seat: own,
            };
            seats.push(fresh).unwrap();
        }
        seats
    }

    /// Opens an empty log for `n` callers with `cap` calls each, with a seat for each caller, in
    /// order.
    pub fn open(alloc: Global, n: u32, cap: u64) -> Result<(SharedLog, Vec<LogSeat>), NoMemory>
        // The log is for at least one caller.
        requires some_callers { 1 ≤ n }
        // The log is for at most `MAX_CALLERS` callers.
        requires few_callers { n ≤ MAX_CALLERS }
        // Each caller may make at least one call.
        requires some_calls { 1 ≤ cap }
        // Each caller may make at most `MAX_CALLS` calls.
        requires few_calls { cap ≤ MAX_CALLS }
        // The log is for `n` callers, each of which may make `cap` calls.
        ensures log { IfOk result (λ r. (callers_of r.0 ≡ n) × (cap_of r.0 ≡ cap)) }
        // The seats are those of all callers of the log, in order.
        ensures seats { IfOk result (λ r. AreSeatsOf r.0 r.1.items) }
        // The log that each seat knows is empty.
        ensures empty { IfOk result (λ r. All (λ s. log_of s ≡ []) r.1.items) }
    {
        let places = place_count(n, cap);
        let logs = empty_logs(alloc, n, places)?;
        let words = Vec::from_elem(alloc, 0u64, 3 * places)?;
        let key = Key { callers: n, cap };
        let (table, seat) = Table::of_words(alloc, words.as_slice(), &key)?;
        let seats = Vec::with_capacity(alloc, n as usize)?;
        let log = SharedLog {
            table,
            callers: n,
            cap,
        };
        let seats = log.deal(seat, logs, seats);
        Ok((log, seats))
    }

    // Takes a caller's seat back: what it knew goes to the seat `keeper`. Returns the longer of the
    // seat's log and `longest`.
    fn take_in(
        &self,
        keeper: &mut Seat<(), Held<Hands>>,
        longest: Vec<Entry>,
        seat: LogSeat,
    ) -> Vec<Entry>
        requires keeper { keeper.old.table_id ≡ self.now.table.shared.table_id }
        requires seat { IsSeatOf self.now seat }
        requires gone { has keeper.old.me.0 (caller_of seat) ≡ None }
        requires wide { caller_of seat < length keeper.old.me.0 }
        ensures keeper { (keeper.new.table_id ≡ keeper.old.table_id)
            × (keeper.new.me.0 ≡ slice_set keeper.old.me.0 (caller_of seat) (Some (hand_of seat))) }
        ensures longest { IsLonger longest.items (log_of seat) result.items }
    {
        let LogSeat {
            cap: _,
            made: _,
            log,
            seat,
        } = seat;
        let OneSeat { who: _, seat } = seat;
        self.table.shared.join_seat::<Returns>(keeper, seat);
        longer(longest, log)
    }

    /// Closes the log, and returns the one log of all calls, of which each seat's log is a prefix.
    /// The seats of all callers come back in order, each in the value that has it.
    pub fn close<P: Seated>(self, mut seats: Vec<P>) -> Vec<Entry>
        // The seats are those of all callers of this log, in order.
        requires seats { AreSeatsOf self (map P.seat seats.items) }
        // Each entry is of one of the log's callers, and no caller has more entries than it may
        // make calls.
        ensures within { IsWithinCap (callers_of self) (cap_of self) result.items }
        // The returned log begins with the log of each seat, and has just those entries of each
        // caller that the caller's seat knows.
        ensures log { IsOneLog result.items (map P.seat seats.items) }
    {
        let Some(last) = seats.pop() else {
            unreachable!()
        };
        let LogSeat {
            cap: _,
            made: _,
            log: mut longest,
            seat,
        } = last.into_seat();
        let OneSeat {
            who: _,
            seat: mut keeper,
        } = seat;
        while let Some(seated) = seats.pop() {
            let seat = seated.into_seat();
            longest = self.take_in(&mut keeper, longest, seat);
        }
        seats.destroy_empty();
        let SharedLog {
            table,
            callers: _,
            cap: _,
        } = self;
        table.close_with(keeper).free();
        longest
    }
}
