//! Refusals.

ghost use Rattle.std.specs.Prelude.{◌≡◌};
ghost use Rattle.fy_link.specs.Answers.{link_of_text};
ghost use Rattle.fy_link.specs.declared.error.UnitReadError.TheVariants as unread;
ghost use Rattle.fy_link.specs.declared.error.LinkError.TheVariants as unlinked;

use fy_base::OutOfMemory;
use fy_front::{FrontError, Refusal};
use std::alloc::AllocFailed;
use thiserror::Error;

/// Why bytes are no unit.
#[derive(Clone, Copy, PartialEq, Eq, Debug, Error)]
pub enum UnitReadError {
    /// The bytes aren't of the form, a part is too long, the source is refused, or its derivation is.
    #[error("no unit")]
    BadUnit,
    /// Memory was wanting.
    #[error("out of memory")]
    OutOfMemory,
}

impl From<OutOfMemory> for UnitReadError {
    ghost from_gives = { λ _ e. e ≡ unread.OutOfMemory };

    fn from(_error: OutOfMemory) -> UnitReadError {
        UnitReadError::OutOfMemory
    }
}

impl<T: Drop> From<AllocFailed<T>> for UnitReadError {
    ghost from_gives = { λ _ e. e ≡ unread.OutOfMemory };

    fn from(_error: AllocFailed<T>) -> UnitReadError {
        UnitReadError::OutOfMemory
    }
}

/// Why units aren't linked. A unit is told by its place in the list, from 0.
#[derive(Clone, Copy, PartialEq, Eq, Debug, Error)]
pub enum LinkError {
    /// The unit has the name of an earlier one.
    #[error("unit {0} has the name of an earlier one")]
    Double(u32),
    /// An import of the unit is the name of no earlier one.
    #[error("an import of unit {0} is no earlier unit")]
    Missing(u32),
    /// The type of an earlier unit isn't below that of an import of this one.
    #[error("an import of unit {0} has another type")]
    Interface(u32),
    /// The last unit is no command.
    #[error("the last unit is no command")]
    NotMain,
    /// The joined text is refused so.
    #[error("the joined text is refused")]
    Text(Refusal),
    /// The composed derivation has over 262,144 nodes, or nests more than 2,048.
    #[error("the derivation is too large")]
    TooLarge,
    /// Memory was wanting.
    #[error("out of memory")]
    OutOfMemory,
}

impl From<OutOfMemory> for LinkError {
    ghost from_gives = { λ _ e. e ≡ unlinked.OutOfMemory };

    fn from(_error: OutOfMemory) -> LinkError {
        LinkError::OutOfMemory
    }
}

impl<T: Drop> From<AllocFailed<T>> for LinkError {
    ghost from_gives = { λ _ e. e ≡ unlinked.OutOfMemory };

    fn from(_error: AllocFailed<T>) -> LinkError {
        LinkError::OutOfMemory
    }
}

impl From<FrontError> for LinkError {
    ghost from_gives = { λ error e. e ≡ link_of_text error };

    fn from(error: FrontError) -> LinkError {
        match error {
            FrontError::Refused(why) => LinkError::Text(why),
            FrontError::OutOfMemory => LinkError::OutOfMemory,
        }
    }
}
