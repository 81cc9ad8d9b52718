//! Why no image is built.

use fy_base::OutOfMemory;
use fy_derive::DeriveError;
use pe_shapes::ShapeError;
use thiserror::Error;

/// Why no image is built of a phrase and a derivation.
#[derive(Clone, Copy, PartialEq, Eq, Debug, Error)]
pub enum BuildError {
    /// Judging stops at the derivation's node with that preorder number, from 0, or the whole concludes
    /// another type than `comm`, which is told as node 0.
    #[error("the derivation stops at node {0}")]
    Wrong(u32),
    /// There are more than 256 shapes.
    #[error("more than 256 shapes")]
    TooManyShapes,
    /// There are at most 256 shapes, and more than 65,536 pairs of a node and a shape.
    #[error("more than 65536 entries")]
    TooManyEntries,
    /// There are few enough shapes and pairs, and the tables for so many shapes take more than
    /// 1,048,576 words.
    #[error("tables of more than 1048576 words")]
    TablesTooLarge,
    /// Memory was wanting.
    #[error("out of memory")]
    OutOfMemory,
}

impl From<DeriveError> for BuildError {
    ghost use Rattle.std.specs.Prelude.{◌≡◌};
    ghost use Rattle.fy_build.specs.Errors.{of_judging};

    ghost from_gives = { λ error e. e ≡ of_judging error };

    fn from(error: DeriveError) -> BuildError {
        match error {
            DeriveError::Wrong(node) => BuildError::Wrong(node),
            DeriveError::OutOfMemory => BuildError::OutOfMemory,
        }
    }
}

impl From<ShapeError> for BuildError {
    ghost use Rattle.std.specs.Prelude.{◌≡◌};
    ghost use Rattle.fy_build.specs.Errors.{of_shaping};

    ghost from_gives = { λ error e. e ≡ of_shaping error };

    fn from(error: ShapeError) -> BuildError {
        match error {
            ShapeError::TooManyShapes => BuildError::TooManyShapes,
            ShapeError::TooManyEntries => BuildError::TooManyEntries,
            ShapeError::TablesTooLarge => BuildError::TablesTooLarge,
            ShapeError::OutOfMemory => BuildError::OutOfMemory,
        }
    }
}

impl From<OutOfMemory> for BuildError {
    ghost use Rattle.std.specs.Prelude.{◌≡◌};
    ghost use Rattle.fy_build.specs.declared.error.BuildError.TheVariants.{OutOfMemory as NoMemory};

    ghost from_gives = { λ _ e. e ≡ NoMemory };

    fn from(_error: OutOfMemory) -> BuildError {
        BuildError::OutOfMemory
    }
}
