//! Why bytes are no image.

ghost use Rattle.std.specs.Prelude.{◌≡◌};
ghost use Rattle.fy_image.specs.declared.error.ImageError.TheVariants as errors;

use fy_base::OutOfMemory;
use std::alloc::{AllocError, AllocFailed};
use thiserror::Error;

/// Why bytes were not read as an image: the first field that fails, in the order of the form.
#[derive(Clone, Copy, PartialEq, Eq, Debug, Error)]
pub enum ImageError {
    /// The bytes don't begin with `FORSYF64`.
    #[error("magic")]
    BadMagic,
    /// The version is another one.
    #[error("version {0}")]
    BadVersion(u32),
    /// The bytes end within a field.
    #[error("truncated")]
    Truncated,
    /// So many bytes stand after the last field.
    #[error("trailing {0}")]
    Trailing(u64),
    /// The field with this number is out of its range: 1 the stack words, 2 the code words, 3 the
    /// table words, 4 the places, 5 the zero, 6 a place.
    #[error("field {0}")]
    BadField(u8),
    /// There are more than 33,554,432 bytes.
    #[error("too large")]
    TooLarge,
    #[error("out of memory")]
    OutOfMemory,
}

impl From<OutOfMemory> for ImageError {
    ghost from_gives = { λ _ e. e ≡ errors.OutOfMemory };

    fn from(_error: OutOfMemory) -> ImageError {
        ImageError::OutOfMemory
    }
}

impl From<AllocError> for ImageError {
    ghost from_gives = { λ _ e. e ≡ errors.OutOfMemory };

    fn from(_error: AllocError) -> ImageError {
        ImageError::OutOfMemory
    }
}

impl<T: Drop> From<AllocFailed<T>> for ImageError {
    ghost from_gives = { λ _ e. e ≡ errors.OutOfMemory };

    fn from(_error: AllocFailed<T>) -> ImageError {
        ImageError::OutOfMemory
    }
}
