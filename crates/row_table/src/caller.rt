ghost use Rattle.std.specs.Prelude.{◌≡◌, ◌≢◌, ℕ, ◌+◌, ◌-◌, ◌<◌, ◌≤◌, ◌↔◌, [], true, false, None, Some, IfSome, IsTrue};
ghost use Rattle.world_core.specs.Local as local;
ghost use Rattle.world_core.specs.Event as event;
ghost use Rattle.world_core.specs.declared.region.Region.{Region};
ghost use Rattle.row_table.specs.Holders.{has, only};
ghost use Rattle.row_table.specs.Seats.{the};
ghost use Rattle.row_table.specs.Notes.{notes_of};

use crate::held::Held;
use crate::notes::Notes;
use crate::phase::Phase;
use crate::stance::Stance;
use atomic_table::Seat;
use book_base::Cut;
use world_core::{Local, Outside, Program, Region, Want};

/// The seat of one caller, which has the local of this caller and no other.
#[derive(Drop)]
pub struct CallerSeat {
    pub who: u32,
    pub seat: Seat<(), Held<Local>>,
    ghost alone: { seat.me ≡ (only who (the (has seat.me.0 who)), []) },
}

/// One caller of a table: its seat, with its local, and what it keeps of that local while it runs.
///
/// It makes steps with the calls of [`Rows`](crate::Rows), each of which is one event of its local.
/// A caller that is dropped makes no more steps, and never comes back to its bench.
#[derive(Drop)]
pub struct Caller<P = Outside> {
    pub(crate) program: P,
    pub(crate) callers: u32,
    pub(crate) cap: u64,
    pub(crate) notes: Notes,
    pub(crate) stance: Stance,
    pub(crate) seat: CallerSeat,
    ghost tied: { notes ≡ notes_of callers seat.who (the (has seat.seat.me.0 seat.who)) },
}

impl<P> Caller<P> {
    ghost use Rattle.world_core.specs.Scan.{FitsCallers};
    ghost use Rattle.row_table.specs.Notes.{wanted_next, given_now};
    ghost use Rattle.row_table.specs.Callers.{who_of, local_with, stance_of, StaysWith};

    /// The number of this caller.
    pub fn who(&self) -> u32
        ensures { result ≡ who_of self.now }
    {
        self.seat.who
    }

    /// How many calls the caller has announced.
    pub fn made(&self) -> u64
        ensures { result ≡ (local_with self.now).announced }
    {
        self.notes.announced
    }

    /// How many calls the caller may still announce: the cap less those that it has announced.
    pub fn left(&self) -> u64
        ensures { result ≡ self.now.cap - (local_with self.now).announced }
    {
        self.cap.saturating_sub(self.notes.announced)
    }

    /// Whether the caller makes calls: it was not halted.
    pub fn live(&self) -> bool
        ensures { result ≡ (stance_of self.now).live }
    {
        self.stance.live
    }

    /// Whether the caller announces next and has staged no word of its row.
    pub fn idle(&self) -> bool
        ensures { IsTrue result ↔ local.IsIdle (local_with self.now) }
    {
        self.notes.phase == Phase::Announcing && self.notes.unstaged
    }

    /// What is due next in the caller's scan under way, if one is under way. No step is made.
    pub fn wants(&self) -> Option<Want>
        // The answer is what is due next in the scan under way, and None where no scan is under
        // way.
        ensures wants { result ≡ wanted_next self.now.callers (local_with self.now).scan }
        // A look that is due is at a caller of the table, and a peek that is due is into a row of
        // one of them, at the entry for one of them; the cut of a scan that has ended has one count
        // for each caller.
        ensures fits { IfSome result (λ want. FitsCallers self.now.callers want) }
    {
        match &self.notes.scan {
            Some(scan) => Some(scan.core.next()),
            None => None,
        }
    }

    /// The cut that the caller was given last, if a scan gave it one and no scan is under way. No
    /// step is made.
    pub fn given(&self) -> Option<Cut>
        ensures { result ≡ given_now (local_with self.now) }
    {
        match self.notes.scan {
            Some(_) => None,
            None => self.notes.given,
        }
    }

    /// Halts the caller, which keeps its local and makes no more calls.
    pub fn halt(mut self) -> Caller<P>
        // The caller doesn't make calls any more, and nothing else of its stance changes.
        ensures stance { stance_of result ≡ record (stance_of self) { live = false } }
        // The caller keeps its number and its local.
        ensures local { (who_of result ≡ who_of self) × (local_with result ≡ local_with self) }
        // The caller still belongs to each table that it belonged to.
        ensures rows { StaysWith self result }
    {
        self.stance.live = false;
        self
    }

    /// Makes the next look begin a scan of this region: that look has to be at the count of caller
    /// 0 there. No step is made.
    pub fn begin_scan(&mut self, region: Region)
        // The caller has no view's scan under way.
        requires { event.is_view_under_way (local_with self.old).scan ≡ false }
        // The caller means to begin a scan of this region with its next look, and nothing else of
        // its stance changes.
        ensures stance { stance_of self.new ≡ record (stance_of self.old) { begins = Some region } }
        // The caller keeps its number and its local.
        ensures local { (who_of self.new ≡ who_of self.old)
            × (local_with self.new ≡ local_with self.old) }
        // The caller still belongs to each table that it belonged to.
        ensures rows { StaysWith self.old self.new }
    {
        self.stance.begins = Some(region);
    }
}

impl<P: Program> Caller<P> {
    ghost use Rattle.row_table.specs.Callers.{who_of, local_with, stance_of, MayGet, StaysWith};

    /// Keeps the reply of the object: the next scan of N is the view's, and begins with it. No step
    /// is made.
    ///
    /// The program allows the caller this reply, by its local.
    pub fn keep_reply(&mut self, reply: u64)
        // The program allows the caller this reply, by its local.
        requires allowed { MayGet P.meaning self.old reply }
        // The caller has announced a call that has no reply yet.
        requires asking { (local_with self.old).phase ≡ local.Asking }
        // The caller keeps no reply yet.
        requires unreplied { (stance_of self.old).reply ≡ None }
        // The program still allows the caller this reply.
        ensures allowed { MayGet P.meaning self.new reply }
        // The caller keeps this reply, and nothing else of its stance changes.
        ensures stance { stance_of self.new ≡ record (stance_of self.old) { reply = Some reply } }
        // The caller keeps its number and its local.
        ensures local { (who_of self.new ≡ who_of self.old)
            × (local_with self.new ≡ local_with self.old) }
        // The caller still belongs to each table that it belonged to.
        ensures rows { StaysWith self.old self.new }
    {
        self.stance.reply = Some(reply);
    }
}
