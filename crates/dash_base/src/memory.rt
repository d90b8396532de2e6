//! Want of memory.

use std::alloc::{AllocError, AllocFailed};

/// There was no memory left. Nothing is tied to it: any call that allocates may answer it.
#[derive(Clone, Copy, Debug, PartialEq, Eq)]
pub struct OutOfMemory;

impl From<AllocError> for OutOfMemory {
    fn from(_error: AllocError) -> OutOfMemory {
        OutOfMemory
    }
}

impl<T: Drop> From<AllocFailed<T>> for OutOfMemory {
    fn from(_failed: AllocFailed<T>) -> OutOfMemory {
        OutOfMemory
    }
}
