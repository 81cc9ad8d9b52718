//! Why an image isn't guarded.

ghost use Rattle.std.specs.Prelude.{◌≡◌};
ghost use Rattle.fy_audit.specs.declared.error.AuditError.TheVariants as errors;

use fy_base::OutOfMemory;
use std::alloc::{AllocError, AllocFailed};
use thiserror::Error;

/// Why an image isn't known to be guarded.
#[derive(Clone, Copy, PartialEq, Eq, Debug, Error)]
pub enum AuditError {
    /// The word with this number is the first that is no instruction's, or else the first of the
    /// first piece that breaks a rule.
    #[error("word {0}")]
    Unguarded(u32),
    #[error("out of memory")]
    OutOfMemory,
}

impl From<OutOfMemory> for AuditError {
    ghost from_gives = { λ _ e. e ≡ errors.OutOfMemory };

    fn from(_error: OutOfMemory) -> AuditError {
        AuditError::OutOfMemory
    }
}

impl From<AllocError> for AuditError {
    ghost from_gives = { λ _ e. e ≡ errors.OutOfMemory };

    fn from(_error: AllocError) -> AuditError {
        AuditError::OutOfMemory
    }
}

impl<T: Drop> From<AllocFailed<T>> for AuditError {
    ghost from_gives = { λ _ e. e ≡ errors.OutOfMemory };

    fn from(_error: AllocFailed<T>) -> AuditError {
        AuditError::OutOfMemory
    }
}
