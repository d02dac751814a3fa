// The one error whose cause no contract can name.
use std::alloc::AllocError;

/// The allocator refused memory: the only error that every contract permits. It leaves everything unchanged unless documented otherwise.
#[derive(Clone, Copy, Debug, PartialEq, Eq)]
pub struct NoMemory;

impl From<AllocError> for NoMemory {
    fn from(_error: AllocError) -> NoMemory {
        NoMemory
    }
}
