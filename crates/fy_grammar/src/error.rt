//! Refusals.

ghost use Rattle.std.specs.Prelude.{◌≡◌};
ghost use Rattle.fy_grammar.specs.declared.error.ParseError.TheVariants.{OutOfMemory};

use fy_base::{OutOfMemory, Place};
use thiserror::Error;

/// Why tokens spell no tree of nesting at most 256.
#[derive(Clone, Copy, PartialEq, Eq, Debug, Error)]
pub enum ParseError {
    /// No tree is spelled, at the place of the first token such that no program begins with the tokens up to it.
    #[error("syntax")]
    Syntax(Place),
    /// No tree of nesting at most 256 is spelled, at the place of the first token such that only deeper programs begin with
    /// the tokens up to it.
    #[error("too deep")]
    TooDeep(Place),
    /// Memory was wanting.
    #[error("out of memory")]
    OutOfMemory,
}

impl From<OutOfMemory> for ParseError {
    ghost from_gives = { λ _ e. e ≡ OutOfMemory };

    fn from(_error: OutOfMemory) -> ParseError {
        ParseError::OutOfMemory
    }
}
