//! Why no path form comes.

use fy_base::OutOfMemory;
use thiserror::Error;

/// Why no path form comes.
#[derive(Clone, Copy, PartialEq, Eq, Debug, Error)]
pub enum TypeError {
    /// The path form has over 4,096 nodes or nests more than 480.
    #[error("the type is too large")]
    TypeTooLarge,
    /// Memory was wanting.
    #[error("out of memory")]
    OutOfMemory,
}

impl From<OutOfMemory> for TypeError {
    ghost use Rattle.std.specs.Prelude.{◌≡◌};
    ghost use Rattle.fy_forms.specs.declared.error.TypeError.TheVariants.{OutOfMemory as NoMemory};

    ghost from_gives = { λ _ e. e ≡ NoMemory };

    fn from(_error: OutOfMemory) -> TypeError {
        TypeError::OutOfMemory
    }
}
