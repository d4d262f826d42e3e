ghost use Rattle.std.specs.Prelude.{List, [], ◌∷◌, Option, None};
ghost use Rattle.hunts.specs.Watching.{RunNews, Begins, Ran, Hears};

use client_scripts::Script;
use reports::Counts;

/// The onlooker of a hunt, who is told of each run, before it begins and when it is made.
pub trait Onlooker {
    /// What the onlooker was told, in order, where it keeps that.
    ghost heard: { Self → Option (List RunNews) };

    /// Tells that a run of this script begins, which is the one of this seed.
    fn begins(&mut self, seed: u64, script: &Script)
        // This comes after what the onlooker was told before, where it keeps that.
        ensures { Hears (heard self.old) (Begins seed script.now ∷ []) (heard self.new) };

    /// Tells that the run of the script of this seed was made, and that its report has these
    /// counts.
    fn ran(&mut self, seed: u64, counts: Counts)
        // This comes after what the onlooker was told before, where it keeps that.
        ensures { Hears (heard self.old) (Ran seed ∷ []) (heard self.new) };
}

/// The onlooker of a hunt that nobody watches.
#[derive(Clone, Copy, Debug, Drop)]
pub struct Unwatched;

impl Onlooker for Unwatched {
    ghost heard = { λ _. None };

    fn begins(&mut self, _seed: u64, _script: &Script) {}

    fn ran(&mut self, _seed: u64, _counts: Counts) {}
}
