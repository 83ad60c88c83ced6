// Want of memory.
use std::alloc::{AllocError, AllocFailed};
use thiserror::Error;

/// No memory was found. Each call that allocates may answer this.
#[derive(Clone, Copy, Debug, Error)]
#[error("out of memory")]
pub struct NoMemory;

impl From<AllocError> for NoMemory {
    fn from(_fault: AllocError) -> NoMemory {
        NoMemory
    }
}

impl<T: Drop> From<AllocFailed<T>> for NoMemory {
    fn from(_fault: AllocFailed<T>) -> NoMemory {
        NoMemory
    }
}
