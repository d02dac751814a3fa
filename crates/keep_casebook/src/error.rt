// The one error of a case.
use keep_spec::NoMemory;
use std::alloc::{AllocError, AllocFailed};
use std::io;

/// Memory was refused.
#[derive(Clone, Copy, Debug, PartialEq, Eq)]
pub struct OutOfMemory;

impl From<AllocError> for OutOfMemory {
    fn from(_error: AllocError) -> OutOfMemory {
        OutOfMemory
    }
}

impl<T: Drop> From<AllocFailed<T>> for OutOfMemory {
    fn from(_error: AllocFailed<T>) -> OutOfMemory {
        OutOfMemory
    }
}

impl From<NoMemory> for OutOfMemory {
    fn from(_error: NoMemory) -> OutOfMemory {
        OutOfMemory
    }
}

impl From<OutOfMemory> for io::Error {
    fn from(_error: OutOfMemory) -> io::Error {
        io::Error::from(io::ErrorKind::OutOfMemory)
    }
}
