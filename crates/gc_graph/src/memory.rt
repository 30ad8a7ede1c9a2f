// Want of memory.

use std::alloc::{AllocError, AllocFailed};
use thiserror::Error;

/// The allocator gave no memory, and nothing was changed.
#[derive(Debug, Drop, Error)]
#[error("no memory")]
pub struct NoMemory;

impl From<AllocError> for NoMemory {
    fn from(_refused: AllocError) -> NoMemory {
        NoMemory
    }
}

impl<T: Drop> From<AllocFailed<T>> for NoMemory {
    fn from(_refused: AllocFailed<T>) -> NoMemory {
        NoMemory
    }
}
