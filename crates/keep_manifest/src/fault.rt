// Why a text wasn't parsed as a manifest.
ghost use Rattle.std.specs.Prelude.{◌≡◌};
ghost use Rattle.keep_manifest.specs.declared.fault.BadManifest.TheVariants.{NoMemory, Refused};

use keep_spec::{Kind, Refusal};
use std::alloc::{AllocError, AllocFailed};

/// The error of a call that reads a manifest.
#[derive(Clone, Copy, Debug, PartialEq, Eq)]
pub enum BadManifest {
    /// Memory was refused. This may come at any time, and says nothing of the text.
    NoMemory,
    /// The text is no manifest: what is wrong with it first from the left, and at which byte.
    Refused(Refusal),
}

impl From<AllocError> for BadManifest {
    ghost from_gives = { λ _ e. e ≡ NoMemory };

    fn from(_error: AllocError) -> BadManifest {
        BadManifest::NoMemory
    }
}

impl<T: Drop> From<AllocFailed<T>> for BadManifest {
    ghost from_gives = { λ _ e. e ≡ NoMemory };

    fn from(_error: AllocFailed<T>) -> BadManifest {
        BadManifest::NoMemory
    }
}

impl From<keep_spec::NoMemory> for BadManifest {
    ghost from_gives = { λ _ e. e ≡ NoMemory };

    fn from(_error: keep_spec::NoMemory) -> BadManifest {
        BadManifest::NoMemory
    }
}

pub(crate) fn refused(at: usize, kind: Kind) -> BadManifest
    ensures { result ≡ Refused (record { at = at; kind = kind }) }
{
    BadManifest::Refused(Refusal { at, kind })
}
