ghost use Rattle.std.specs.Prelude.{◌≡◌, ◌↔◌, ◌∷◌, ◌++◌, [], length, slice_get, Some, IfOk, IfSome, IfNone, OnOk, IsTrue, ◌≤◌};
ghost use Rattle.book_base.specs.declared.TheConstants.{MAX_CALLERS};
ghost use Rattle.queue_pairs.specs.Pairs.{none_paired};
ghost use Rattle.queue_pairs.specs.NextEntries.{paired};
ghost use Rattle.queue_refutation.specs.Closed.{IsOnePaired};
ghost use Rattle.pair_refutations.specs.Tabled.{standings_of, AreKnown, IsEarly, AreEarly};

use book_base::NoMemory;
use indexmap::IndexSet;
use queue_pairs::PairState;
use std::alloc::Global;

/// A list of standings, with the set of them.
#[derive(Drop)]
pub struct Standings {
    pub all: Vec<PairState>,
    pub known: IndexSet<PairState>,
}

impl Standings {
    /// The list of the standing that covers no call.
    pub(crate) fn start(alloc: Global) -> Result<Standings, NoMemory>
        ensures start { IfOk result (λ made. standings_of made ≡ none_paired MAX_CALLERS ∷ []) }
        ensures known { IfOk result AreKnown }
        ensures early { IfOk result AreEarly }
    {
        let mut standings = Standings {
            all: Vec::new(alloc),
            known: IndexSet::new(alloc),
        };
        standings.push(PairState::start())?;
        Ok(standings)
    }

    /// Adds a standing at the end.
    pub(crate) fn push(&mut self, standing: PairState) -> Result<(), NoMemory>
        requires known { AreKnown self.old }
        requires early { AreEarly self.old }
        requires new { IsEarly standing }
        ensures added { OnOk result (standings_of self.new
            ≡ standings_of self.old ++ paired standing ∷ []) }
        ensures known { OnOk result (AreKnown self.new) }
        ensures early { OnOk result (AreEarly self.new) }
    {
        self.all.push(standing)?;
        let _is_new = self.known.insert(standing)?;
        Ok(())
    }

    /// Whether a standing is one of the list.
    pub(crate) fn has(&self, standing: &PairState) -> bool
        requires { AreKnown self.now }
        ensures { IsTrue result ↔ IsOnePaired (standings_of self.now) (paired standing.now) }
    {
        self.known.contains(standing)
    }

    /// The standing with a number, where there is one.
    pub(crate) fn get(&self, number: u64) -> Option<PairState>
        requires { AreEarly self.now }
        ensures there { IfSome result (λ s.
            slice_get (standings_of self.now) number ≡ Some (paired s)) }
        ensures early { IfSome result IsEarly }
        ensures none { IfNone result (length (standings_of self.now) ≤ number) }
    {
        if number < self.all.len() as u64 {
            Some(self.all[number as usize])
        } else {
            None
        }
    }
}
