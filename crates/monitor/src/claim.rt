ghost use Rattle.std.specs.Prelude.{◌≡◌, true, is_some, None, IfOk};

use crate::board::Board;
use crate::witness::Witness;
use book_base::NoMemory;
use once_cell::race::Note;
use std::alloc::Global;

/// What one monitor has found, and what it knows of its board: its own witness, a flag that is set
/// only where the board took a copy of this witness, and a note of the witness on the board.
#[derive(Drop)]
pub(crate) struct Claim {
    own: Option<Witness>,
    placed: bool,
    note: Note<Witness>,
    ghost same: { placed ≡ true → note.known ≡ own },
    ghost found: { placed ≡ true → is_some own ≡ true },
}

// A copy of a witness, in a box of its own.
fn boxed_copy(alloc: Global, witness: &Witness) -> Result<Box<Witness>, NoMemory>
    ensures { IfOk result (λ copy. copy.value ≡ witness.now) }
{
    Ok(Box::new(alloc, witness.copy(alloc)?)?)
}

impl Claim {
    ghost use Rattle.std.specs.Prelude.{false, Some, IfSome, IfNone, IsSomeAnd};
    ghost use Rattle.std.specs.Option.{MatchOption};
    ghost use Rattle.once_cell.specs.Once.{Agrees};
    ghost use Rattle.monitor.specs.Claims.{own_in, placed_in, known_in, IsClaimOn, AreOnOne, HasSameFindings, KnowsOrLacked, Agree};

    /// The claim of a monitor that has found nothing yet, and knows nothing of the board. It takes
    /// no memory.
    pub fn new(board: &Board) -> Claim
        ensures board { IsClaimOn board.now result }
        ensures nothing { (own_in result ≡ None) × (placed_in result ≡ false)
            × (known_in result ≡ None) }
    {
        Claim {
            own: None,
            placed: false,
            note: board.cell.note(),
        }
    }

    /// Keeps a witness as the monitor's own, and tries once to put a copy of it on the board. Where
    /// memory for the copy is lacking, the board isn't tried.
    pub fn keep(&mut self, alloc: Global, board: &Board, witness: Witness)
        requires board { IsClaimOn board.now self.old }
        requires nothing { own_in self.old ≡ None }
        ensures board { IsClaimOn board.now self.new }
        ensures own { own_in self.new ≡ Some witness }
        ensures known { KnowsOrLacked (known_in self.old) (known_in self.new) }
        ensures first { placed_in self.new ≡ true → known_in self.old ≡ None }
    {
        if let Ok(copy) = boxed_copy(alloc, &witness) {
            self.placed = board.cell.set_as(copy, &mut self.note).is_ok();
        }
        self.own = Some(witness);
    }

    /// The own witness of a monitor, where it has found one.
    pub fn own(&self) -> Option<&Witness>
        ensures { MatchOption result (own_in self.now ≡ None) (λ r. own_in self.now ≡ Some r.now) }
    {
        self.own.as_ref()
    }

    /// `true` only where the board took a copy of the monitor's own witness.
    pub fn placed(&self) -> bool
        ensures { result ≡ placed_in self.now }
    {
        self.placed
    }

    /// The witness on the board, if there is one. The claim knows it from then on.
    pub fn known<'a>(&mut self, board: &'a Board) -> Option<&'a Witness>
        requires board { IsClaimOn board.now self.old }
        ensures board { IsClaimOn board.now self.new }
        ensures findings { HasSameFindings self.old self.new }
        ensures none { IfNone result ((known_in self.old ≡ None) × (known_in self.new ≡ None)) }
        ensures some { IfSome result
            (λ r. (known_in self.new ≡ Some r.now) × Agrees (known_in self.old) r.now) }
        ensures placed { placed_in self.old ≡ true
            → IsSomeAnd result (λ r. own_in self.old ≡ Some r.now) }
    {
        board.cell.get_as(&mut self.note)
    }

    /// Where both claims know a witness on the board, they know the same one.
    pub fn agree(&mut self, other: &mut Claim)
        requires { AreOnOne self.old other.old }
        ensures same { (self.new ≡ self.old) × (other.new ≡ other.old) }
        ensures agree { Agree (known_in self.new) (known_in other.new) }
    {
        let note = other.note.again();
        self.note.compare(note);
    }

    /// The own witness of the claim, and `placed`.
    pub(crate) fn into_parts(self) -> (Option<Witness>, bool)
        ensures parts { (result.0 ≡ own_in self) × (result.1 ≡ placed_in self) }
        ensures found { result.1 ≡ true → is_some result.0 ≡ true }
    {
        let Claim {
            own,
            placed,
            note: _,
        } = self;
        (own, placed)
    }
}
