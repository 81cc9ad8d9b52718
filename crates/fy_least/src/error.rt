//! Why a phrase has no derivation.

use fy_base::{OutOfMemory, Place};
use fy_forms::TypeError;
use std::alloc::AllocFailed;
use thiserror::Error;

/// Why no derivation of a phrase is found.
#[derive(Clone, Copy, PartialEq, Eq, Debug, Error)]
pub enum FindError {
    /// The phrase is no command. The place is that of the innermost phrase without a type of use on
    /// the way down along the first ones.
    #[error("no type")]
    NoType(Place),
    /// A type of the phrase has over 4,096 nodes or nests more than 480, or all its least types
    /// together have over 4,194,304 nodes.
    #[error("a type is too large")]
    TypeTooLarge,
    /// Memory was wanting.
    #[error("out of memory")]
    OutOfMemory,
}

impl From<OutOfMemory> for FindError {
    ghost use Rattle.std.specs.Prelude.{◌≡◌};
    ghost use Rattle.fy_least.specs.declared.error.FindError.TheVariants.{OutOfMemory as NoMemory};

    ghost from_gives = { λ _ e. e ≡ NoMemory };

    fn from(_error: OutOfMemory) -> FindError {
        FindError::OutOfMemory
    }
}

impl From<LeastError> for FindError {
    ghost use Rattle.std.specs.Prelude.{◌≡◌};
    ghost use Rattle.fy_least.specs.Refused.{of_least};

    ghost from_gives = { λ error e. e ≡ of_least error };

    fn from(error: LeastError) -> FindError {
        match error {
            LeastError::TypeTooLarge => FindError::TypeTooLarge,
            LeastError::OutOfMemory => FindError::OutOfMemory,
        }
    }
}

/// Why no least type of a phrase is found.
#[derive(Clone, Copy, PartialEq, Eq, Debug, Error)]
pub enum LeastError {
    /// One of the types is past a limit, or all least types together are.
    #[error("a type is too large")]
    TypeTooLarge,
    /// Memory was wanting.
    #[error("out of memory")]
    OutOfMemory,
}

impl From<OutOfMemory> for LeastError {
    ghost use Rattle.std.specs.Prelude.{◌≡◌};
    ghost use Rattle.fy_least.specs.declared.error.LeastError.TheVariants.{OutOfMemory as NoMemory};

    ghost from_gives = { λ _ e. e ≡ NoMemory };

    fn from(_error: OutOfMemory) -> LeastError {
        LeastError::OutOfMemory
    }
}

impl<T: Drop> From<AllocFailed<T>> for LeastError {
    ghost use Rattle.std.specs.Prelude.{◌≡◌};
    ghost use Rattle.fy_least.specs.declared.error.LeastError.TheVariants.{OutOfMemory as NoMemory};

    ghost from_gives = { λ _ e. e ≡ NoMemory };

    fn from(_error: AllocFailed<T>) -> LeastError {
        LeastError::OutOfMemory
    }
}

impl From<TypeError> for LeastError {
    ghost use Rattle.std.specs.Prelude.{◌≡◌};
    ghost use Rattle.fy_least.specs.Refused.{of_type};

    ghost from_gives = { λ error e. e ≡ of_type error };

    fn from(error: TypeError) -> LeastError {
        match error {
            TypeError::TypeTooLarge => LeastError::TypeTooLarge,
            TypeError::OutOfMemory => LeastError::OutOfMemory,
        }
    }
}
