// The want of memory, as an error of its own.
use std::alloc::{AllocError, AllocFailed};
use thiserror::Error;

/// Memory ran out. It may come of any call that allocates, and no contract says when.
#[derive(Clone, Copy, Debug, PartialEq, Eq, Error)]
#[error("out of memory")]
pub struct Memory;

impl From<AllocError> for Memory {
    fn from(_: AllocError) -> Memory {
        Memory
    }
}

impl<T: Drop> From<AllocFailed<T>> for Memory {
    fn from(_: AllocFailed<T>) -> Memory {
        Memory
    }
}
