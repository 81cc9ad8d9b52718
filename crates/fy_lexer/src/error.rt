//! Refusals.

ghost use Rattle.std.specs.Prelude.{◌≡◌};
ghost use Rattle.fy_lexer.specs.declared.error.LexError.TheVariants.{OutOfMemory};

use fy_base::{OutOfMemory, Place};
use std::alloc::AllocFailed;
use thiserror::Error;

/// Why a text has no tokens. The first fault from the left is told.
#[derive(Clone, Copy, PartialEq, Eq, Debug, Error)]
pub enum LexError {
    /// A byte that begins or continues no token.
    #[error("bad byte")]
    BadByte(Place),
    /// A comment, string or character that isn't closed, at its first byte.
    #[error("unclosed")]
    Unclosed(Place),
    /// A literal past 9223372036854775807, at its first byte.
    #[error("number too large")]
    NumberTooLarge(Place),
    /// More than 262,144 tokens.
    #[error("too many tokens")]
    TooManyTokens,
    /// Memory was wanting.
    #[error("out of memory")]
    OutOfMemory,
}

impl From<OutOfMemory> for LexError {
    ghost from_gives = { λ _ e. e ≡ OutOfMemory };

    fn from(_error: OutOfMemory) -> LexError {
        LexError::OutOfMemory
    }
}

impl<T: Drop> From<AllocFailed<T>> for LexError {
    ghost from_gives = { λ _ e. e ≡ OutOfMemory };

    fn from(_error: AllocFailed<T>) -> LexError {
        LexError::OutOfMemory
    }
}
