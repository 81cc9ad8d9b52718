//! Why no table of shapes is made.

use fy_base::OutOfMemory;
use std::alloc::AllocFailed;
use thiserror::Error;

/// Why no table of shapes is made of a derivation.
#[derive(Clone, Copy, PartialEq, Eq, Debug, Error)]
pub enum ShapeError {
    /// There are more than 256 shapes.
    #[error("more than 256 shapes")]
    TooManyShapes,
    /// There are at most 256 shapes, and more than 65,536 pairs of a node and a shape.
    #[error("more than 65536 entries")]
    TooManyEntries,
    /// There are few enough shapes and pairs, and the tables for so many shapes take more than
    /// 1,048,576 words.
    #[error("tables of more than 1048576 words")]
    TablesTooLarge,
    /// Memory was wanting.
    #[error("out of memory")]
    OutOfMemory,
}

impl From<OutOfMemory> for ShapeError {
    ghost use Rattle.std.specs.Prelude.{◌≡◌};
    ghost use Rattle.pe_shapes.specs.declared.error.ShapeError.TheVariants.{OutOfMemory as NoMemory};

    ghost from_gives = { λ _ e. e ≡ NoMemory };

    fn from(_error: OutOfMemory) -> ShapeError {
        ShapeError::OutOfMemory
    }
}

impl<T: Drop> From<AllocFailed<T>> for ShapeError {
    ghost use Rattle.std.specs.Prelude.{◌≡◌};
    ghost use Rattle.pe_shapes.specs.declared.error.ShapeError.TheVariants.{OutOfMemory as NoMemory};

    ghost from_gives = { λ _ e. e ≡ NoMemory };

    fn from(_error: AllocFailed<T>) -> ShapeError {
        ShapeError::OutOfMemory
    }
}
