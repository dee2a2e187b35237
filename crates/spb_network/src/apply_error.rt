//! Why a command isn't applied.
ghost use Rattle.std.specs.Prelude.{◌≡◌};

use spb_types::NoMemory;
use spb_world::Reason;
use std::alloc::AllocFailed;
use thiserror::Error;

/// Why a command wasn't applied.
#[derive(Clone, Copy, Debug, PartialEq, Eq, Error)]
pub enum ApplyError {
    /// An earlier command found no memory. Nothing changed.
    #[error("an earlier command found no memory")]
    Halted,
    /// The command is refused. Nothing changed.
    #[error(transparent)]
    Refused(Reason),
    /// No memory was found. What boxes and lanes are afterwards isn't told.
    #[error("out of memory")]
    NoMemory,
}

impl From<NoMemory> for ApplyError {
    ghost use Rattle.spb_network.specs.declared.apply_error.ApplyError.TheVariants as errors;

    ghost from_gives = { λ _ e. e ≡ errors.NoMemory };

    fn from(_refused: NoMemory) -> Self {
        ApplyError::NoMemory
    }
}

impl<T: Drop> From<AllocFailed<T>> for ApplyError {
    ghost use Rattle.spb_network.specs.declared.apply_error.ApplyError.TheVariants as errors;

    ghost from_gives = { λ _ e. e ≡ errors.NoMemory };

    fn from(_refused: AllocFailed<T>) -> Self {
        ApplyError::NoMemory
    }
}
