// Why a manifest wasn't normalized.
ghost use Rattle.std.specs.Prelude.{◌≡◌};
ghost use Rattle.keep_normal.specs.declared.fault.NormalError.TheVariants.{NoMemory};

use std::alloc::{AllocError, AllocFailed};

/// The error of `normalize`.
#[derive(Clone, Copy, Debug, PartialEq, Eq)]
pub enum NormalError {
    /// Memory was refused. This may come at any time, and says nothing of the manifest.
    NoMemory,
    /// A position or a size of the normal form isn't below 10^19, since blocks of several streams come together in one line there.
    TooLarge,
}

impl From<AllocError> for NormalError {
    ghost from_gives = { λ _ e. e ≡ NoMemory };

    fn from(_error: AllocError) -> NormalError {
        NormalError::NoMemory
    }
}

impl<T: Drop> From<AllocFailed<T>> for NormalError {
    ghost from_gives = { λ _ e. e ≡ NoMemory };

    fn from(_error: AllocFailed<T>) -> NormalError {
        NormalError::NoMemory
    }
}

impl From<keep_spec::NoMemory> for NormalError {
    ghost from_gives = { λ _ e. e ≡ NoMemory };

    fn from(_error: keep_spec::NoMemory) -> NormalError {
        NormalError::NoMemory
    }
}
