// Why files weren't packed or unpacked.
ghost use Rattle.std.specs.Prelude.{◌≡◌};
ghost use Rattle.keep_files.specs.declared.fault.PackError.TheVariants as packing;
ghost use Rattle.keep_files.specs.declared.fault.UnpackError.TheVariants as unpacking;

use keep_normal::NormalError;
use keep_spec::{Digest, NoMemory};
use std::alloc::{AllocError, AllocFailed};

/// The error of `pack_files`.
#[derive(Clone, Copy, Debug, PartialEq, Eq)]
pub enum PackError {
    /// Memory was refused, or the files of one directory have 10^19 bytes or more. This may come at any time, and says nothing of the
    /// files.
    NoMemory,
    /// The path of the file at this index, counted from 0, isn't one: an empty component, `.` or `..`.
    BadName { index: usize },
    /// The file at this index, counted from 0, has the path of an earlier one.
    Twice { index: usize },
}

impl From<AllocError> for PackError {
    ghost from_gives = { λ _ e. e ≡ packing.NoMemory };

    fn from(_error: AllocError) -> PackError {
        PackError::NoMemory
    }
}

impl From<NoMemory> for PackError {
    ghost from_gives = { λ _ e. e ≡ packing.NoMemory };

    fn from(_error: NoMemory) -> PackError {
        PackError::NoMemory
    }
}

impl From<NormalError> for PackError {
    ghost from_gives = { λ _ e. e ≡ packing.NoMemory };

    fn from(_error: NormalError) -> PackError {
        PackError::NoMemory
    }
}

/// The error of `unpack`.
#[derive(Clone, Copy, Debug, PartialEq, Eq)]
pub enum UnpackError {
    /// Memory was refused. This may come at any time, and says nothing of the manifest and the blocks.
    NoMemory,
    /// A part lies in the block of this digest, which isn't there.
    Missing { digest: Digest },
    /// A part lies past the end of the block of this digest.
    Short { digest: Digest },
}

impl From<AllocError> for UnpackError {
    ghost from_gives = { λ _ e. e ≡ unpacking.NoMemory };

    fn from(_error: AllocError) -> UnpackError {
        UnpackError::NoMemory
    }
}

impl<T: Drop> From<AllocFailed<T>> for UnpackError {
    ghost from_gives = { λ _ e. e ≡ unpacking.NoMemory };

    fn from(_error: AllocFailed<T>) -> UnpackError {
        UnpackError::NoMemory
    }
}

impl From<NoMemory> for UnpackError {
    ghost from_gives = { λ _ e. e ≡ unpacking.NoMemory };

    fn from(_error: NoMemory) -> UnpackError {
        UnpackError::NoMemory
    }
}
