ghost use Rattle.std.specs.Prelude.{◌≡◌};
ghost use Rattle.byte_streams.specs.declared.failed.ReadAllError.TheVariants.{Fault, NoMemory};

use std::alloc::AllocError;
use thiserror::Error;

/// A read or a write failed. Its source or sink has counted the fault.
#[derive(Clone, Copy, Debug, PartialEq, Eq, Error)]
#[error("a read or a write failed")]
pub struct Failed;

/// Why a source was not read to its end.
#[derive(Clone, Copy, Debug, PartialEq, Eq, Error)]
pub enum ReadAllError {
    /// A read failed.
    #[error("a read failed")]
    Fault,
    /// Memory was lacking.
    #[error("out of memory")]
    NoMemory,
}

impl From<Failed> for ReadAllError {
    ghost from_gives = { λ _ e. e ≡ Fault };

    fn from(_e: Failed) -> ReadAllError {
        ReadAllError::Fault
    }
}

impl From<AllocError> for ReadAllError {
    ghost from_gives = { λ _ e. e ≡ NoMemory };

    fn from(_e: AllocError) -> ReadAllError {
        ReadAllError::NoMemory
    }
}
