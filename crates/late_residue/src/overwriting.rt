ghost use Rattle.std.specs.Prelude.{◌≡◌, ℕ, Bool, IsTrue};
ghost use Rattle.late_residue.specs.Placing.{Overwrites};
ghost use Rattle.late_residue.specs.Writes.{kind_writes, kind_writes-overwrite, is_register_write, is_cas_register_write};

use book_base::{GrowsByOne, OpWord};
use seq_objects::{CasRegisterOperation, Kind, RegisterOperation};

/// A sequential object of which it is known which operations overwrite.
pub trait Overwriting: GrowsByOne {
    /// Which operations are known to overwrite.
    ghost writes: { Self → ℕ → Bool };

    /// Whether an operation is known to overwrite.
    fn overwrites(&self, op: OpWord) -> bool
        ensures { result ≡ writes self.now op };

    /// An operation that is known to overwrite makes the same list of each list, and has the same
    /// reply.
    ghost they_overwrite: { (object : Self) (op : ℕ) → IsTrue (writes object op)
        → Overwrites (Self.spec object).next op };
}

impl Overwriting for Kind {
    ghost writes = { kind_writes };

    ghost they_overwrite = { kind_writes-overwrite };

    /// The writes of a register, and of one with compare-and-set.
    #[tactic(auto, unfolding(crate::specs::Writes::kind_writes))]
    fn overwrites(&self, op: OpWord) -> bool {
        match self {
            Kind::Register => writes_register(RegisterOperation::from_word(op)),
            Kind::CasRegister => writes_cas_register(CasRegisterOperation::from_word(op)),
            Kind::Queue | Kind::Stack | Kind::Counter | Kind::IntSet | Kind::Pqueue | Kind::Map =>
                false,
        }
    }
}

// Whether an operation of a register is a write.
fn writes_register(operation: Option<RegisterOperation>) -> bool
    ensures { result ≡ is_register_write operation }
{
    matches!(operation, Some(RegisterOperation::Write(_)))
}

// Whether an operation of a register with compare-and-set is a write.
fn writes_cas_register(operation: Option<CasRegisterOperation>) -> bool
    ensures { result ≡ is_cas_register_write operation }
{
    matches!(operation, Some(CasRegisterOperation::Write(_)))
}
