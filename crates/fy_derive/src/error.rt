//! Why a derivation is refused.

use fy_base::OutOfMemory;
use std::alloc::AllocFailed;
use thiserror::Error;

/// Why a derivation is refused.
#[derive(Clone, Copy, PartialEq, Eq, Debug, Error)]
pub enum DeriveError {
    /// Judging stops at the node with that preorder number, from 0, or the whole concludes another
    /// type than `comm`, which is told as node 0.
    #[error("the derivation stops at node {0}")]
    Wrong(u32),
    /// Memory was wanting.
    #[error("out of memory")]
    OutOfMemory,
}

impl From<OutOfMemory> for DeriveError {
    ghost use Rattle.std.specs.Prelude.{◌≡◌};
    ghost use Rattle.fy_derive.specs.declared.error.DeriveError.TheVariants.{OutOfMemory as NoMemory};

    ghost from_gives = { λ _ e. e ≡ NoMemory };

    fn from(_error: OutOfMemory) -> DeriveError {
        DeriveError::OutOfMemory
    }
}

impl<T: Drop> From<AllocFailed<T>> for DeriveError {
    ghost use Rattle.std.specs.Prelude.{◌≡◌};
    ghost use Rattle.fy_derive.specs.declared.error.DeriveError.TheVariants.{OutOfMemory as NoMemory};

    ghost from_gives = { λ _ e. e ≡ NoMemory };

    fn from(_error: AllocFailed<T>) -> DeriveError {
        DeriveError::OutOfMemory
    }
}
