//! Why reading a text stops at a byte.

ghost use Rattle.std.specs.Prelude.{◌≡◌};
ghost use Rattle.fy_read.specs.Stopping.{error_at};

use crate::error::ReadError;
use fy_base::OutOfMemory;
use std::alloc::AllocFailed;

/// Why reading stops at a byte, or at the end.
#[derive(Clone, Copy, PartialEq, Eq, Debug)]
pub enum Stop {
    /// No text goes on so.
    Misfit,
    TooLarge,
    TooDeep,
    OutOfMemory,
}

impl Stop {
    /// The error of a text in which reading stops at that offset.
    pub fn at(self, offset: usize) -> ReadError
        ensures { result ≡ error_at self offset }
    {
        match self {
            Stop::Misfit => ReadError::BadText(offset as u64),
            Stop::TooLarge => ReadError::TooLarge,
            Stop::TooDeep => ReadError::TooDeep,
            Stop::OutOfMemory => ReadError::OutOfMemory,
        }
    }
}

impl From<OutOfMemory> for Stop {
    ghost use Rattle.std.specs.Prelude.{◌≡◌};
    ghost use Rattle.fy_read.specs.declared.stop.Stop.TheVariants.{OutOfMemory as NoMemory};

    ghost from_gives = { λ _ e. e ≡ NoMemory };

    fn from(_error: OutOfMemory) -> Stop {
        Stop::OutOfMemory
    }
}

impl<T: Drop> From<AllocFailed<T>> for Stop {
    ghost use Rattle.std.specs.Prelude.{◌≡◌};
    ghost use Rattle.fy_read.specs.declared.stop.Stop.TheVariants.{OutOfMemory as NoMemory};

    ghost from_gives = { λ _ e. e ≡ NoMemory };

    fn from(_error: AllocFailed<T>) -> Stop {
        Stop::OutOfMemory
    }
}
