//! Why bytes are no ELF file of an image.

ghost use Rattle.std.specs.Prelude.{◌≡◌};
ghost use Rattle.fy_elf.specs.declared.error.ElfError.TheVariants as errors;

use fy_base::OutOfMemory;
use std::alloc::{AllocError, AllocFailed};
use thiserror::Error;

/// Why bytes were not read as the ELF file of an image: the first field that isn't as it has to be.
#[derive(Clone, Copy, PartialEq, Eq, Debug, Error)]
pub enum ElfError {
    /// The field at this offset is another one.
    #[error("elf {0}")]
    Bad(u64),
    /// The bytes end within a field.
    #[error("truncated")]
    Truncated,
    /// So many bytes stand after the last place.
    #[error("trailing {0}")]
    Trailing(u64),
    /// There are more than 33,554,432 bytes.
    #[error("too large")]
    TooLarge,
    #[error("out of memory")]
    OutOfMemory,
}

impl From<OutOfMemory> for ElfError {
    ghost from_gives = { λ _ e. e ≡ errors.OutOfMemory };

    fn from(_error: OutOfMemory) -> ElfError {
        ElfError::OutOfMemory
    }
}

impl From<AllocError> for ElfError {
    ghost from_gives = { λ _ e. e ≡ errors.OutOfMemory };

    fn from(_error: AllocError) -> ElfError {
        ElfError::OutOfMemory
    }
}

impl<T: Drop> From<AllocFailed<T>> for ElfError {
    ghost from_gives = { λ _ e. e ≡ errors.OutOfMemory };

    fn from(_error: AllocFailed<T>) -> ElfError {
        ElfError::OutOfMemory
    }
}
