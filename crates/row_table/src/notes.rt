ghost use Rattle.std.specs.Prelude.{◌≡◌, ℕ, ◌+◌, ◌<◌, ◌≤◌, ◌-◌, ◌^◌, ◌&&◌, Bool, true, false, IsTrue, Some, ◌∷◌, [], ◌++◌};
ghost use Rattle.book_base.specs.declared.TheConstants.{MAX_CALLERS};
ghost use Rattle.world_core.specs.declared.region.Region.{Region};
ghost use Rattle.world_core.specs.Local as local;
ghost use Rattle.world_core.specs.Event as event;
ghost use Rattle.world_core.specs.Scan as scan;

use crate::action::Opening;
use crate::layout::embedded_place;
use crate::phase::Phase;
use book_base::Cut;
use world_core::{Region, ScanCore, Want};

/// A scan under way, as its caller keeps it.
#[derive(Debug, Drop)]
pub struct ScanUnderWay {
    pub core: ScanCore,
    pub is_view: bool,
}

/// What a caller keeps of its local: its counts in N and M, its phase, whether its row under way
/// has no staged word, its scan under way, and the last cut that a scan gave it.
#[derive(Debug, Drop)]
pub struct Notes {
    pub announced: u64,
    pub published: u64,
    pub phase: Phase,
    pub unstaged: bool,
    pub scan: Option<ScanUnderWay>,
    pub given: Option<Cut>,
}

impl ScanUnderWay {
    ghost use Rattle.row_table.specs.Notes.{under_way, phase_after, cut_of};

    fn begin(n: u32, me: u32, region: Region, is_view: bool) -> ScanUnderWay
        requires caller { me < n }
        requires few { n ≤ MAX_CALLERS }
        ensures { result ≡ under_way n me
            (record { region = region; is_view = is_view; since = 0; taken = [] }) }
    {
        ScanUnderWay {
            core: ScanCore::begin(n, me, region),
            is_view,
        }
    }

    // Whether the scan is of this region, and the look at the count of caller `j` is due next in
    // it.
    fn wants_look(&self, region: Region, j: u32) -> bool
        ensures open { IsTrue result → scan.has_ended self.now.core.course ≡ false }
        ensures wanted { (n me : ℕ) (s : local.Scan) → self.now ≡ under_way n me s
            → result ≡ (event.is_same_region s.region region
            && event.is_look_wanted j (scan.wanted n s.taken)) }
    {
        if self.core.region() != region {
            return false;
        }
        match self.core.next() {
            Want::Look(caller) => caller == j,
            _ => false,
        }
    }

    // Whether the scan is of this region, and the peek at this place of row `row` of caller `j` is
    // due next in it.
    fn wants_peek(&self, callers: u32, region: Region, j: u32, row: u64, place: u32) -> bool
        ensures open { IsTrue result → scan.has_ended self.now.core.course ≡ false }
        ensures wanted { (me : ℕ) (s : local.Scan) → self.now ≡ under_way callers me s
            → result ≡ (event.is_same_region s.region region
            && event.is_peek_wanted callers region j row place (scan.wanted callers s.taken)) }
    {
        if self.core.region() != region {
            return false;
        }
        match self.core.next() {
            Want::Peek(caller, at, entry) => {
                caller == j && (at == row && embedded_place(callers, region, entry) == place as u64)
            }
            _ => false,
        }
    }

    // Adds the word that is due next to those that the scan took. The answer is the scan's cut,
    // where the scan ends with this word.
    fn take(&mut self, word: u64) -> Option<Cut>
        requires { scan.has_ended self.old.core.course ≡ false }
        ensures taken { (n me : ℕ) (s : local.Scan) → self.old ≡ under_way n me s
            → self.new ≡ under_way n me (event.with_word s word) }
        ensures ended { (n me : ℕ) (s : local.Scan) → self.old ≡ under_way n me s
            → result ≡ cut_of (scan.wanted n (event.with_word s word).taken) }
    {
        self.core.take(word);
        match self.core.next() {
            Want::Done(cut) => Some(cut),
            _ => None,
        }
    }

    // The phase of a caller after this scan ended, by its phase before.
    fn phase_after(&self, phase: Phase) -> Phase
        ensures { result ≡ phase_after phase self.now.core.region self.now.is_view }
    {
        match (phase, self.core.region()) {
            (Phase::Viewing, Region::N) if self.is_view => Phase::Publishing,
            (Phase::Judging, Region::M) => Phase::Announcing,
            _ => phase,
        }
    }
}

impl Notes {
    ghost use Rattle.row_table.specs.Notes.{under_way, notes_of, takes, IsOpen};
    ghost use Rattle.row_table.specs.Actions.{opening_in};

    // The notes of the local at the start.
    pub fn fresh() -> Notes
        ensures { (n me : ℕ) → result ≡ notes_of n me local.fresh }
    {
        Notes {
            announced: 0,
            published: 0,
            phase: Phase::Announcing,
            unstaged: true,
            scan: None,
            given: None,
        }
    }

    /// The caller's own count in a region.
    pub fn count(&self, region: Region) -> u64
        ensures { (n me : ℕ) (l : local.Local) → self.now ≡ notes_of n me l
            → result ≡ local.own_count l region }
    {
        match region {
            Region::N => self.announced,
            Region::M => self.published,
        }
    }

    // Changes the notes by what a look begins: nothing, a scan, or the view's scan.
    fn open(&mut self, n: u32, me: u32, region: Region, opening: Opening)
        requires caller { me < n }
        requires few { n ≤ MAX_CALLERS }
        ensures { (l : local.Local) → self.old ≡ notes_of n me l
            → self.new ≡ notes_of n me (event.opened l region (opening_in opening)) }
    {
        match opening {
            Opening::Nothing => {}
            Opening::Scan => self.scan = Some(ScanUnderWay::begin(n, me, region, false)),
            Opening::View(_) => {
                self.phase = Phase::Viewing;
                self.scan = Some(ScanUnderWay::begin(n, me, region, true));
            }
        }
    }

    // Whether a scan of this region is under way, and the look at the count of caller `j` is due
    // next in it.
    fn wants_look(&self, region: Region, j: u32) -> bool
        ensures open { IsTrue result → IsOpen self.now.scan }
        ensures wanted { (n me : ℕ) (l : local.Local) → self.now ≡ notes_of n me l
            → result ≡ takes n l.scan region (event.is_look_wanted j) }
    {
        match &self.scan {
            Some(scan) => scan.wants_look(region, j),
            None => false,
        }
    }

    // Whether a scan of this region is under way, and the peek at this place of row `row` of caller
    // `j` is due next in it.
    fn wants_peek(&self, n: u32, region: Region, j: u32, row: u64, place: u32) -> bool
        ensures open { IsTrue result → IsOpen self.now.scan }
        ensures wanted { (me : ℕ) (l : local.Local) → self.now ≡ notes_of n me l
            → result ≡ takes n l.scan region (event.is_peek_wanted n region j row place) }
    {
        match &self.scan {
            Some(scan) => scan.wants_peek(n, region, j, row, place),
            None => false,
        }
    }

    // Adds the word that is due next to those that the scan under way took. Where the scan ends
    // with this word, no scan is under way any more, the phase is the one after that scan, and its
    // cut is the last given one.
    fn take(&mut self, word: u64)
        requires { IsOpen self.old.scan }
        ensures { (n me : ℕ) (l : local.Local) (s : local.Scan) → l.scan ≡ Some s
            → self.old ≡ notes_of n me l → self.new ≡ notes_of n me (event.went_on l
            (event.with_word s word) (scan.wanted n (event.with_word s word).taken)) }
    {
        let phase = self.phase;
        let Some(scan) = &mut self.scan else {
            unreachable!()
        };
        if let Some(cut) = scan.take(word) {
            self.phase = scan.phase_after(phase);
            self.scan = None;
            self.given = Some(cut);
        }
    }

    /// Changes the notes by a look, which may begin a scan.
    pub fn look(&mut self, n: u32, me: u32, region: Region, j: u32, opening: Opening, word: u64)
        requires caller { me < n }
        requires few { n ≤ MAX_CALLERS }
        ensures { (l : local.Local) → self.old ≡ notes_of n me l → self.new ≡ notes_of n me
            (event.local_after n l (event.Look region j word (opening_in opening))) }
    {
        self.open(n, me, region, opening);
        if self.wants_look(region, j) {
            self.take(word);
        }
    }

    /// Changes the notes by a peek.
    pub fn peek(&mut self, n: u32, region: Region, j: u32, row: u64, place: u32, word: u64)
        ensures { (me : ℕ) (l : local.Local) → self.old ≡ notes_of n me l → self.new
            ≡ notes_of n me (event.local_after n l (event.Peek region j row place word)) }
    {
        if self.wants_peek(n, region, j, row, place) {
            self.take(word);
        }
    }

    /// Changes the notes by the staging of a word.
    pub fn stage(&mut self)
        ensures { (n me : ℕ) (l : local.Local) (region : Region) (place word : ℕ)
            → self.old ≡ notes_of n me l
            → self.new ≡ notes_of n me (event.local_after n l (event.Stage region place word)) }
    {
        self.unstaged = false;
    }

    /// Changes the notes by an announcement.
    pub fn announce(&mut self)
        requires { self.old.announced < 2 ^ 64 - 1 }
        ensures { (n me : ℕ) (l : local.Local) → self.old ≡ notes_of n me l
            → self.new ≡ notes_of n me (event.local_after n l event.Announce) }
    {
        self.announced += 1;
        self.phase = Phase::Asking;
        self.unstaged = true;
        self.scan = None;
    }

    /// Changes the notes by a publication.
    pub fn publish(&mut self)
        requires { self.old.published < 2 ^ 64 - 1 }
        ensures { (n me : ℕ) (l : local.Local) → self.old ≡ notes_of n me l
            → self.new ≡ notes_of n me (event.local_after n l event.Publish) }
    {
        self.published += 1;
        self.phase = Phase::Judging;
        self.unstaged = true;
        self.scan = None;
    }
}
