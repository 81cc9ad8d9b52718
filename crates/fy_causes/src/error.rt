//! Why no cause is found.

use fy_base::OutOfMemory;
use fy_forms::TypeError;
use std::alloc::{AllocError, AllocFailed};
use thiserror::Error;

/// Why no cause is found.
#[derive(Clone, Copy, PartialEq, Eq, Debug, Error)]
pub(crate) enum CauseError {
    /// A type of the phrase has over 4,096 nodes or nests more than 480.
    #[error("a type is too large")]
    TypeTooLarge,
    /// Memory was wanting.
    #[error("out of memory")]
    OutOfMemory,
}

impl From<OutOfMemory> for CauseError {
    ghost use Rattle.std.specs.Prelude.{◌≡◌};
    ghost use Rattle.fy_causes.specs.declared.error.CauseError.TheVariants.{OutOfMemory as NoMemory};

    ghost from_gives = { λ _ e. e ≡ NoMemory };

    fn from(_error: OutOfMemory) -> CauseError {
        CauseError::OutOfMemory
    }
}

// The types of a phrase that `find` doesn't refuse for them keep the limits.
impl From<CauseError> for OutOfMemory {
    fn from(_error: CauseError) -> OutOfMemory {
        OutOfMemory
    }
}

impl From<AllocError> for CauseError {
    ghost use Rattle.std.specs.Prelude.{◌≡◌};
    ghost use Rattle.fy_causes.specs.declared.error.CauseError.TheVariants.{OutOfMemory as NoMemory};

    ghost from_gives = { λ _ e. e ≡ NoMemory };

    fn from(_error: AllocError) -> CauseError {
        CauseError::OutOfMemory
    }
}

impl<T: Drop> From<AllocFailed<T>> for CauseError {
    ghost use Rattle.std.specs.Prelude.{◌≡◌};
    ghost use Rattle.fy_causes.specs.declared.error.CauseError.TheVariants.{OutOfMemory as NoMemory};

    ghost from_gives = { λ _ e. e ≡ NoMemory };

    fn from(_error: AllocFailed<T>) -> CauseError {
        CauseError::OutOfMemory
    }
}

impl From<TypeError> for CauseError {
    fn from(error: TypeError) -> CauseError {
        match error {
            TypeError::TypeTooLarge => CauseError::TypeTooLarge,
            TypeError::OutOfMemory => CauseError::OutOfMemory,
        }
    }
}
