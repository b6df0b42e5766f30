use std::alloc::{AllocError, AllocFailed};
use thiserror::Error;

/// No memory was left.
#[derive(Clone, Copy, Debug, PartialEq, Eq, Error)]
#[error("out of memory")]
pub struct OutOfMemory;

impl From<AllocError> for OutOfMemory {
    fn from(_error: AllocError) -> OutOfMemory {
        OutOfMemory
    }
}

impl<T: Drop> From<AllocFailed<T>> for OutOfMemory {
    fn from(_error: AllocFailed<T>) -> OutOfMemory {
        OutOfMemory
    }
}

impl From<stacking::OutOfMemory> for OutOfMemory {
    fn from(_error: stacking::OutOfMemory) -> OutOfMemory {
        OutOfMemory
    }
}

impl From<paint_order::OutOfMemory> for OutOfMemory {
    fn from(_error: paint_order::OutOfMemory) -> OutOfMemory {
        OutOfMemory
    }
}

impl From<spatial_index::OutOfMemory> for OutOfMemory {
    fn from(_error: spatial_index::OutOfMemory) -> OutOfMemory {
        OutOfMemory
    }
}
