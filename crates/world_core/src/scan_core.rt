ghost use Rattle.std.specs.Prelude.{◌≡◌, ℕ, ◌+◌, ◌<◌, ◌≤◌, Bool, true, false, List, [], ◌∷◌, ◌++◌, length};
ghost use Rattle.book_base.specs.declared.TheConstants.{MAX_CALLERS};
ghost use Rattle.world_core.specs.declared.region.Region.{Region};
ghost use Rattle.world_core.specs.Scan.{wanted, wanted_by, is_done, has_ended, FitsCallers, mover, lent_by, course_by, course_on, IsSteady, IsShort};
ghost use Rattle.world_core.specs.Standing.{standing};
ghost use Rattle.world_core.specs.ScanLayout.{FitsRound, FitsCourse};

use crate::course::Course;
use crate::region::Region;
use crate::want::Want;
use book_base::{Cut, MAX_CALLERS};
use std::marker::Model;

/// A scan of a region by one caller, as a machine that is handed each word that it needs.
///
/// It makes collects, and compares each with the one before it: two equal ones end it. Where a
/// caller has moved twice since the first collect, it ends with the cut that this caller's latest
/// counted row embeds (Afek and others 1993). A round is a collect, or the peeks at all entries of
/// an embedded cut. The machine keeps the first and the last whole round and the words of the round
/// under way. Clauses see it as the state of a scan that has taken some list of words.
#[derive(Debug, Drop)]
pub struct ScanCore {
    me: u32,
    region: Region,
    first: Option<Cut>,
    last: Option<Cut>,
    current: Cut,
    taken: u32,
    course: Course,
}

impl Model for ScanCore {
    ghost use Rattle.world_core.specs.Standing.{ScanState};
    ghost use Rattle.world_core.specs.ScanLayout.{standing_of, IsWhole};

    ghost Value = { ScanState };

    ghost view = { standing_of };

    ghost invariant = { IsWhole };
}

impl ScanCore {
    /// A scan that has taken no word.
    pub fn begin(n: u32, me: u32, region: Region) -> ScanCore
        // The scan's caller is one of the callers.
        requires caller { me < n }
        // There are at most `MAX_CALLERS` callers.
        requires few { n ≤ MAX_CALLERS }
        ensures { result ≡ standing n me region [] }
    {
        ScanCore {
            me,
            region,
            first: None,
            last: None,
            current: Cut::zero(n),
            taken: 0,
            course: Course::Collects,
        }
    }

    /// The caller that scans.
    pub fn me(&self) -> u32
        ensures { result ≡ self.now.me }
    {
        self.me
    }

    /// The region that is scanned.
    pub fn region(&self) -> Region
        ensures { result ≡ self.now.region }
    {
        self.region
    }

    /// What the scan needs next.
    pub fn next(&self) -> Want
        // What the scan needs next depends on what it does at present and on the words of its round
        // under way.
        ensures now { result ≡ wanted_by self.now.course self.now.current }
        // The answer is a cut exactly where the scan has ended.
        ensures ended { is_done result ≡ has_ended self.now.course }
        // Each caller that the answer names is one of the scan's callers, and a cut in the answer
        // has one count for each of them.
        ensures fits { FitsCallers self.now.callers result }
        // The answer is what a scan of n callers needs next after the words that it has taken.
        ensures wanted { (n me : ℕ) (region : Region) (taken : List ℕ)
            → self.now ≡ standing n me region taken → result ≡ wanted n taken }
    {
        match self.course {
            Course::Collects => Want::Look(self.taken),
            Course::Borrows(caller, row) => Want::Peek(caller, row, self.taken),
            Course::Ends(cut) => Want::Done(cut),
        }
    }

    /// Takes the word that the scan needs next. The scan must not have ended.
    ///
    /// Where counts never fall and the scanning caller's own count stays as it is, a scan of `n`
    /// callers makes at most `n + 1` collects, which is `n * (n + 1)` looks, and at most `n` peeks.
    pub fn take(&mut self, word: u64)
        // The scan hasn't ended.
        requires { has_ended self.old.course ≡ false }
        // Afterwards the scan is one that has taken `word` after the words that it had taken.
        ensures taken { (n me : ℕ) (region : Region) (taken : List ℕ) → self.old
            ≡ standing n me region taken → self.new ≡ standing n me region (taken ++ word ∷ []) }
        // Where the words that the scan has taken, `word` with them, are steady (no count falls,
        // and the scanning caller's own count stays as it is), the scan has made at most
        // n * (n + 1) looks and n peeks.
        ensures short { (n me : ℕ) (region : Region) (taken : List ℕ)
            → self.old ≡ standing n me region taken → IsSteady n me (taken ++ word ∷ [])
            → IsShort n (taken ++ word ∷ []) }
    {
        self.current.set(self.taken, word);
        self.taken += 1;
        if self.taken == self.current.n() {
            let first = self.first.unwrap_or(self.current);
            self.course = course_on(self.course, &first, &self.last, &self.current);
            self.first = Some(first);
            self.last = Some(self.current);
            self.taken = 0;
        }
    }
}

// What a scan does after a round, by what it did in that round, the first round, the round before,
// if there is one, and the latest round.
fn course_on(course: Course, first: &Cut, last: &Option<Cut>, latest: &Cut) -> Course
    requires first { length first.now ≡ length latest.now }
    requires last { FitsRound (length latest.now) last.now }
    ensures course { result ≡ course_on first.now last.now latest.now course }
    ensures fits { FitsCourse (length latest.now) course → FitsCourse (length latest.now) result }
{
    match course {
        Course::Collects => course_by(first, last, latest),
        Course::Borrows(_, _) => Course::Ends(*latest),
        Course::Ends(cut) => Course::Ends(cut),
    }
}

// What a scan does after a collect, given the first collect, the one before the latest, if there is
// one, and the latest.
fn course_by(first: &Cut, last: &Option<Cut>, latest: &Cut) -> Course
    requires first { length first.now ≡ length latest.now }
    requires last { FitsRound (length latest.now) last.now }
    ensures course { result ≡ course_by first.now last.now latest.now }
    ensures fits { FitsCourse (length latest.now) result }
{
    match last {
        None => Course::Collects,
        Some(before) if before.equals(latest) => Course::Ends(*latest),
        Some(_) => lent_by(first, latest),
    }
}

// What a scan does after two collects in a row that differ: it borrows from the caller of the least
// number that has moved twice since the first collect, and collects again where no caller has.
fn lent_by(first: &Cut, latest: &Cut) -> Course
    requires first { length first.now ≡ length latest.now }
    ensures course { result ≡ lent_by latest.now (mover first.now latest.now) }
    ensures fits { FitsCourse (length latest.now) result }
{
    for i in 0..latest.n() {
        if latest.get(i).saturating_sub(first.get(i)) > 1 {
            return Course::Borrows(i, latest.get(i).saturating_sub(1));
        }
    }
    Course::Collects
}
