ghost use Rattle.std.specs.Prelude.{◌≡◌, ◌≢◌, ℕ, ◌+◌, ◌%◌, ◌<◌, ◌≤◌, ◌^◌, ◌==◌, IsTrue, [], Some, None, IfOk, slice_set, replicate, length};
ghost use prog.Atomic.{either};
ghost use Rattle.row_table.specs.Benches.{fresh_kept, fresh_stance};
ghost use Rattle.std.specs.Coded.{Coded-set};
ghost use Rattle.std.specs.Slots.{slots_items, slots_len, IsFull};
ghost use Rattle.book_base.specs.declared.TheConstants.{MAX_CALLERS, MAX_CALLS};
ghost use Rattle.world_core.specs.Layout as words;
ghost use Rattle.world_core.specs.Local as local;
ghost use Rattle.world_core.specs.Event as event;

use crate::action::Action;
use crate::bench::{Bench, Kept};
use crate::caller::{Caller, CallerSeat};
use crate::held::{Held, Leaves, Part, Returns};
use crate::layout::{embedded_place, row_words};
use crate::notes::Notes;
use crate::plays::{Does, Key, Learns, StepEvent, Worlds, Writes};
use crate::stance::Stance;
use crate::world::World;
use atomic_table::{Closed, Seat, Table};
use book_base::{MAX_CALLERS, MAX_CALLS, NoMemory};
use std::alloc::{AllocError, Global};
use std::marker::{Brand, PhantomData};
use world_core::{Local, Outside, Program, Region};

/// The table of a world: the counts and the rows of its callers, and the object words of its
/// program.
///
/// Each step is one sequentially consistent atomic step and one event of the world, on the local of
/// the caller that makes it, with the word that was really loaded. No step locks, waits or takes
/// memory; only the calls that open and close the table take memory.
#[derive(Drop)]
pub struct Rows<P: Program = Outside> {
    pub(crate) table: Table<(), Held<Local>, Key<P>, Worlds<P>, Global>,
    pub(crate) program: P,
    pub(crate) callers: u32,
    pub(crate) cap: u64,
    pub(crate) objects: u64,
    ghost sized: { (table.shared.table_id.words ≡ words.row_words callers cap + objects)
        × (table.shared.table_id.slots ≡ 0) × (table.shared.key.callers ≡ callers)
        × (table.shared.key.cap ≡ cap) × (table.shared.key.objects ≡ objects) },
    ghost few: { (1 ≤ callers) × (callers ≤ MAX_CALLERS) × (1 ≤ cap) × (cap ≤ MAX_CALLS)
        × (objects ≤ 65536) },
    ghost told: { table.shared.key.program ≡ program } by { Coded-set P.code table.shared.key.program program },
}

// The words of a closed table that has `count` words, in order.
fn copied(alloc: Global, closed: &Closed<(), Global>, count: usize) -> Result<Vec<u64>, AllocError>
    requires { (slots_len closed.now.words ≡ count) × IsFull closed.now.words }
    ensures { IfOk result (λ v. v.items ≡ slots_items closed.now.words) }
{
    let mut words = Vec::with_capacity(alloc, count)?;
    for i in 0..count {
        words.push(closed.word(i))?;
    }
    Ok(words)
}

// What a bench keeps of `n` callers at the start.
fn all_kept(alloc: Global, n: u32) -> Result<Vec<Option<Kept>>, AllocError>
    ensures { IfOk result (λ v. v.items ≡ replicate n (Some fresh_kept)) }
{
    let mut places = Vec::with_capacity(alloc, n as usize)?;
    for _i in 0..n {
        places.push(Some(Kept {
            notes: Notes::fresh(),
            stance: Stance::fresh(),
        }))?;
    }
    Ok(places)
}

impl<P: Program> Rows<P> {
    ghost use Rattle.row_table.specs.Holders.{has, only};
    ghost use Rattle.row_table.specs.Seats.{the, Makes, Together, IsWorldOf};
    ghost use Rattle.row_table.specs.Actions.{event_of};
    ghost use Rattle.row_table.specs.Callers.{key_of, shape_of, seated, who_of, local_with, stance_of, on_bench, stance_on, locals_on, IsSeatOf, IsCallerOf, IsBenchOf, Holds, HoldsAll, IsFree, HoldsFree};
    ghost use Rattle.row_table.specs.Worlds.{words_in};
    ghost use Rattle.world_core.specs.Shape.{words_of};
    ghost use Rattle.world_core.specs.Calls.{AreTogether};

    // Makes the step `action` of the seat's caller, which loads the word at the index `word`, and
    // answers this word.
    pub(crate) fn load_as<J: StepEvent>(
        &self,
        seat: &mut CallerSeat,
        action: Action,
        word: usize,
    ) -> u64
        requires seat { IsSeatOf P.meaning self.now seat.old }
        requires word { word < self.now.table.shared.table_id.words }
        requires deed { (J.shape ≡ shape_of P.meaning self.now) × (J.who ≡ seat.old.who)
            × (J.event ≡ event_of action) }
        requires makes { Makes (shape_of P.meaning self.now) self.now.objects seat.old.who
            (seated seat.old) word (λ x. x) (event_of action) }
        ensures seat { IsSeatOf P.meaning self.now seat.new × (seat.new.who ≡ seat.old.who) }
        ensures event { seated seat.new
            ≡ event.local_after self.now.callers (seated seat.old) (event_of action result) }
    {
        self.table.shared.load::<Does<J>>(&mut seat.seat, word)
    }

    // Makes the step `action` of the seat's caller, which stores `new` at the index `word`.
    pub(crate) fn store_as<J: StepEvent>(
        &self,
        seat: &mut CallerSeat,
        action: Action,
        word: usize,
        new: u64,
    )
        requires seat { IsSeatOf P.meaning self.now seat.old }
        requires word { word < self.now.table.shared.table_id.words }
        requires deed { (J.shape ≡ shape_of P.meaning self.now) × (J.who ≡ seat.old.who)
            × (J.event ≡ event_of action) }
        requires makes { Makes (shape_of P.meaning self.now) self.now.objects seat.old.who
            (seated seat.old) word (λ _. new) (event_of action) }
        ensures seat { IsSeatOf P.meaning self.now seat.new × (seat.new.who ≡ seat.old.who) }
        ensures event { (x : ℕ) × (x < 2 ^ 64) × (seated seat.new
            ≡ event.local_after self.now.callers (seated seat.old) (event_of action x)) }
    {
        self.table
            .shared
            .store::<Writes<J>>(&mut seat.seat, word, new)
    }

    // Makes the step `action` of the seat's caller, which adds `add`, modulo 2^64, to the word at
    // the index `word`, and answers the word that it found.
    pub(crate) fn add_as<J: StepEvent>(
        &self,
        seat: &mut CallerSeat,
        action: Action,
        word: usize,
        add: u64,
    ) -> u64
        requires seat { IsSeatOf P.meaning self.now seat.old }
        requires word { word < self.now.table.shared.table_id.words }
        requires deed { (J.shape ≡ shape_of P.meaning self.now) × (J.who ≡ seat.old.who)
            × (J.event ≡ event_of action) }
        requires makes { Makes (shape_of P.meaning self.now) self.now.objects seat.old.who
            (seated seat.old) word (λ x. (x + add) % 2 ^ 64) (event_of action) }
        ensures seat { IsSeatOf P.meaning self.now seat.new × (seat.new.who ≡ seat.old.who) }
        ensures event { seated seat.new
            ≡ event.local_after self.now.callers (seated seat.old) (event_of action result) }
    {
        self.table
            .shared
            .fetch_add::<Does<J>>(&mut seat.seat, word, add)
    }

    // Makes the step `action` of the seat's caller, which puts `new` at the index `word` where it
    // finds `old` there, and answers the word that it found.
    pub(crate) fn exchange_as<J: StepEvent>(
        &self,
        seat: &mut CallerSeat,
        action: Action,
        word: usize,
        old: u64,
        new: u64,
    ) -> u64
        requires seat { IsSeatOf P.meaning self.now seat.old }
        requires word { word < self.now.table.shared.table_id.words }
        requires deed { (J.shape ≡ shape_of P.meaning self.now) × (J.who ≡ seat.old.who)
            × (J.event ≡ event_of action) }
        requires makes { Makes (shape_of P.meaning self.now) self.now.objects seat.old.who
            (seated seat.old) word (λ x. either (x == old) new x) (event_of action) }
        ensures seat { IsSeatOf P.meaning self.now seat.new × (seat.new.who ≡ seat.old.who) }
        ensures event { seated seat.new
            ≡ event.local_after self.now.callers (seated seat.old) (event_of action result) }
    {
        self.table
            .shared
            .compare_exchange::<Does<J>>(&mut seat.seat, word, old, new)
    }

    // Loads word 0, after which the locals on the bench are known to be those of one reachable
    // world.
    fn learn_as<J: StepEvent>(&self, bench: &mut Bench<P>)
        requires shape { J.shape ≡ shape_of P.meaning self.now }
        requires bench { bench.old.seat.table_id ≡ self.now.table.shared.table_id }
        ensures seat { (bench.new.seat.table_id ≡ bench.old.seat.table_id)
            × (bench.new.seat.me ≡ bench.old.seat.me) }
        ensures kept { (bench.new.places.items ≡ bench.old.places.items)
            × (bench.new.callers ≡ bench.old.callers) × (bench.new.cap ≡ bench.old.cap) }
        ensures together { Together (shape_of P.meaning self.now) bench.new.seat.me.0 }
    {
        self.table.shared.load::<Learns<J>>(&mut bench.seat, 0);
    }

    // Takes the local of a caller from a bench's seat to a seat of its own, which is the answer.
    fn leave_as<J: Part>(&self, seat: &mut Seat<(), Held<Local>>, who: u32) -> CallerSeat
        requires who { J.who ≡ who }
        requires seat { seat.old.table_id ≡ self.now.table.shared.table_id }
        requires here { has seat.old.me.0 who ≡ Some (the (has seat.old.me.0 who)) }
        ensures seat { (seat.new.table_id ≡ seat.old.table_id)
            × (seat.new.me ≡ (slice_set seat.old.me.0 who None, seat.old.me.1)) }
        ensures caller { (result.who ≡ who) × (result.seat.table_id ≡ seat.old.table_id)
            × (result.seat.me.0 ≡ only who (the (has seat.old.me.0 who))) }
    {
        let seat = self.table.shared.split_seat::<Leaves<J>>(seat);
        CallerSeat { who, seat }
    }

    /// A table for `n` callers with `cap` calls each, and the bench that holds all of them, idle
    /// and live. All words are 0.
    pub fn open(
        alloc: Global,
        program: P,
        n: u32,
        cap: u64,
    ) -> Result<(Rows<P>, Bench<P>), NoMemory>
        // There is at least one caller.
        requires some_callers { 1 ≤ n }
        // There are at most `MAX_CALLERS` callers.
        requires few_callers { n ≤ MAX_CALLERS }
        // Each caller has at least one call.
        requires some_calls { 1 ≤ cap }
        // Each caller has at most `MAX_CALLS` calls.
        requires few_calls { cap ≤ MAX_CALLS }
        // The rows have this many callers, this cap and this program, and as many object words as
        // the program says.
        ensures rows { IfOk result (λ r. (r.0.callers ≡ n) × (r.0.cap ≡ cap)
            × (r.0.program ≡ program) × (r.0.objects ≡ (P.meaning program n cap).objects)) }
        // The bench belongs to this table, and its locals are those of one reachable world.
        ensures bench { IfOk result (λ r. IsBenchOf P.meaning r.0 r.1) }
        // The bench has each caller with the local and the stance of the start.
        ensures fresh { IfOk result (λ r. (i : ℕ) → i < n → (on_bench r.1 i ≡ Some local.fresh)
            × (stance_on r.1 i ≡ Some fresh_stance)) }
    {
        let places = all_kept(alloc, n)?;
        let objects = program.object_words(n, cap);
        let count = row_words(n, cap) + objects as usize;
        let words = Vec::from_elem(alloc, 0u64, count)?;
        let key = Key {
            program,
            callers: n,
            cap,
            objects,
        };
        let (table, seat) = Table::of_words(alloc, words.as_slice(), &key)?;
        let rows = Rows {
            table,
            program,
            callers: n,
            cap,
            objects,
        };
        let bench = Bench {
            callers: n,
            cap,
            places,
            seat,
            of: PhantomData,
        };
        Ok((rows, bench))
    }

    /// How many callers the table has.
    pub fn callers(&self) -> u32
        ensures { result ≡ self.now.callers }
    {
        self.callers
    }

    /// The place, in a row of a region, of a caller's entry in the cut that the row embeds.
    pub fn embedded_place(&self, region: Region, caller: u32) -> u32
        // The caller is one of the table's.
        requires { caller < self.now.callers }
        // The answer is the place that the layout gives the caller's entry in a row of the region.
        ensures place { result ≡ words.embedded_place self.now.callers region caller }
        // A row has the answered place in this region.
        ensures fits { result < words.places self.now.callers region }
    {
        embedded_place(self.callers, region, caller) as u32
    }

    /// The program of the world.
    pub fn program(&self) -> P
        ensures { result ≡ self.now.program }
    {
        self.program
    }

    /// Takes a caller off the bench, with its local and its stance: where the bench holds it free,
    /// it is free. One load of word 0 is made, which is no event.
    pub fn part(&self, bench: &mut Bench<P>, caller: u32) -> Caller<P>
        // The bench belongs to this table, and its locals are those of one reachable world.
        requires bench { IsBenchOf P.meaning self.now bench.old }
        // The bench holds the caller.
        requires held { Holds bench.old caller }
        // The bench still belongs to this table, and its locals are those of one reachable world.
        ensures bench { IsBenchOf P.meaning self.now bench.new }
        // The bench has no local of the caller.
        ensures gone { on_bench bench.new caller ≡ None }
        // The bench has the local and the stance of each other caller as before.
        ensures others { (i : ℕ) → i ≢ caller → (on_bench bench.new i ≡ on_bench bench.old i)
            × (stance_on bench.new i ≡ stance_on bench.old i) }
        // The answered caller belongs to this table, and has this number.
        ensures caller { IsCallerOf P.meaning self.now result × (who_of result ≡ caller) }
        // The answered caller has the local that the bench had of it.
        ensures local { on_bench bench.old caller ≡ Some (local_with result) }
        // The answered caller has the stance that the bench had of it.
        ensures stance { stance_on bench.old caller ≡ Some (stance_of result) }
        // A caller that the bench held free for its next call is free for it.
        ensures free { HoldsFree bench.old caller → IsFree result }
    {
        let Some(kept) = bench.places[caller as usize].take() else {
            unreachable!()
        };
        let Kept { notes, stance } = kept;
        let seat = self.leave_as::<Brand>(&mut bench.seat, caller);
        Caller {
            program: self.program,
            callers: self.callers,
            cap: self.cap,
            notes,
            stance,
            seat,
        }
    }

    /// Puts a caller back on the bench, with its local and its stance. Two loads of word 0 are
    /// made, which are no events: after the second the locals on the bench are known to be those of
    /// one reachable world.
    pub fn back(&self, bench: &mut Bench<P>, caller: Caller<P>)
        // The bench belongs to this table, and its locals are those of one reachable world.
        requires bench { IsBenchOf P.meaning self.now bench.old }
        // The caller belongs to this table.
        requires caller { IsCallerOf P.meaning self.now caller }
        // The bench doesn't have the local of the caller.
        requires gone { on_bench bench.old (who_of caller) ≡ None }
        // The bench still belongs to this table, and its locals are those of one reachable world.
        ensures bench { IsBenchOf P.meaning self.now bench.new }
        // The bench has the caller's local and its stance.
        ensures here { (on_bench bench.new (who_of caller) ≡ Some (local_with caller))
            × (stance_on bench.new (who_of caller) ≡ Some (stance_of caller)) }
        // The bench has the local and the stance of each other caller as before.
        ensures others { (i : ℕ) → i ≢ who_of caller → (on_bench bench.new i ≡ on_bench bench.old i)
            × (stance_on bench.new i ≡ stance_on bench.old i) }
    {
        let Caller {
            program: _,
            callers: _,
            cap: _,
            notes,
            stance,
            seat,
        } = caller;
        let CallerSeat { who, seat } = seat;
        bench.places[who as usize] = Some(Kept { notes, stance });
        self.table
            .shared
            .join_seat::<Returns>(&mut bench.seat, seat);
        self.learn_as::<Brand>(bench);
    }

    /// The locals of a bench that holds all callers are those of one reachable world.
    pub fn whole_bench_is_together(&self, bench: &Bench<P>)
        // The bench belongs to this table, and its locals are those of one reachable world.
        requires bench { IsBenchOf P.meaning self.now bench.now }
        // The bench holds all callers.
        requires all { HoldsAll bench.now }
        ensures { AreTogether (shape_of P.meaning self.now) (locals_on bench.now) }
    {}

    /// Closes the table and answers its words: with the locals of the bench, which holds all
    /// callers, they are a reachable world. Where memory runs out, the words are lost.
    pub fn close(self, alloc: Global, bench: Bench<P>) -> Result<World<P>, NoMemory>
        // The bench belongs to this table, and its locals are those of one reachable world.
        requires bench { IsBenchOf P.meaning self bench }
        // The bench holds all callers.
        requires all { HoldsAll bench }
        // The closed table's words are, with the bench's locals, a reachable world.
        ensures world { IfOk result
            (λ world. IsWorldOf (shape_of P.meaning self) (words_in world) (locals_on bench)) }
        // The answered world has as many words as the table's layout.
        ensures count { IfOk result
            (λ world. length (words_in world) ≡ words_of (shape_of P.meaning self)) }
    {
        let Rows {
            table,
            program: _,
            callers: _,
            cap: _,
            objects: _,
        } = self;
        let Bench {
            callers: _,
            cap: _,
            places: _,
            seat,
            of: _,
        } = bench;
        let count = table.word_count();
        let closed = table.close_with(seat);
        let words = copied(alloc, &closed, count);
        closed.free();
        Ok(World {
            words: words?,
            of: PhantomData,
        })
    }
}
