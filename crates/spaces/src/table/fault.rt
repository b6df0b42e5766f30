ghost use Rattle.std.specs.Prelude.{◌≡◌};
ghost use Rattle.spaces.specs.declared.table.fault.BoundOrMemory.TheVariants.{OutOfMemory};

use std::alloc::{AllocError, AllocFailed};
use thiserror::Error;

/// Why spaces can't be renewed.
#[derive(Clone, Copy, Debug, PartialEq, Eq, Error)]
pub enum BoundOrMemory {
    /// A product on the way to a node would pass the bound on maps.
    #[error("a map passes the bound")]
    Bound,
    #[error("out of memory")]
    OutOfMemory,
}

impl From<AllocError> for BoundOrMemory {
    ghost from_gives = { λ _ why. why ≡ OutOfMemory };

    fn from(_error: AllocError) -> BoundOrMemory {
        BoundOrMemory::OutOfMemory
    }
}

impl<T: Drop> From<AllocFailed<T>> for BoundOrMemory {
    ghost from_gives = { λ _ why. why ≡ OutOfMemory };

    fn from(_error: AllocFailed<T>) -> BoundOrMemory {
        BoundOrMemory::OutOfMemory
    }
}
