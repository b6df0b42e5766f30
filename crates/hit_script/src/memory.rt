use std::alloc::{AllocError, AllocFailed};
use thiserror::Error;

/// Memory was wanting.
#[derive(Clone, Copy, Debug, PartialEq, Eq, Error)]
#[error("out of memory")]
pub struct OutOfMemory;

impl From<AllocError> for OutOfMemory {
    fn from(_error: AllocError) -> OutOfMemory {
        OutOfMemory
    }
}

impl From<mouse_events::OutOfMemory> for OutOfMemory {
    fn from(_error: mouse_events::OutOfMemory) -> OutOfMemory {
        OutOfMemory
    }
}

impl From<script_lines::OutOfMemory> for OutOfMemory {
    fn from(_error: script_lines::OutOfMemory) -> OutOfMemory {
        OutOfMemory
    }
}

impl From<tree_edits::OutOfMemory> for OutOfMemory {
    fn from(_error: tree_edits::OutOfMemory) -> OutOfMemory {
        OutOfMemory
    }
}

impl<T: Drop> From<AllocFailed<T>> for OutOfMemory {
    fn from(_error: AllocFailed<T>) -> OutOfMemory {
        OutOfMemory
    }
}
