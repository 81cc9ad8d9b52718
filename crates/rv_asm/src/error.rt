//! Why items aren't assembled.

ghost use Rattle.std.specs.Prelude.{◌≡◌};
ghost use Rattle.rv_asm.specs.declared.error.AsmError.TheVariants as errors;

use fy_base::OutOfMemory;
use std::alloc::{AllocError, AllocFailed};
use thiserror::Error;

/// Why items were not assembled.
#[derive(Clone, Copy, PartialEq, Eq, Debug, Error)]
pub enum AsmError {
    /// No label is marked twice, and this one is named and not marked: that of the first such item.
    #[error("unknown label {0}")]
    UnknownLabel(u32),
    /// This label is marked twice: that of the first mark whose label was marked before.
    #[error("label {0} is marked twice")]
    DoubleLabel(u32),
    /// Memory was wanting.
    #[error("out of memory")]
    OutOfMemory,
}

impl From<OutOfMemory> for AsmError {
    ghost from_gives = { λ _ e. e ≡ errors.OutOfMemory };

    fn from(_error: OutOfMemory) -> AsmError {
        AsmError::OutOfMemory
    }
}

impl From<AllocError> for AsmError {
    ghost from_gives = { λ _ e. e ≡ errors.OutOfMemory };

    fn from(_error: AllocError) -> AsmError {
        AsmError::OutOfMemory
    }
}

impl<T: Drop> From<AllocFailed<T>> for AsmError {
    ghost from_gives = { λ _ e. e ≡ errors.OutOfMemory };

    fn from(_error: AllocFailed<T>) -> AsmError {
        AsmError::OutOfMemory
    }
}
