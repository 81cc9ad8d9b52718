//! Refusals.

ghost use Rattle.std.specs.Prelude.{◌≡◌};
ghost use Rattle.fy_expand.specs.declared.error.ExpandError.TheVariants.{OutOfMemory};

use fy_base::{OutOfMemory, Place};
use std::alloc::AllocFailed;
use thiserror::Error;

/// Why a written phrase has no core phrase. The first fault in the text is told; of two at one place the one that is listed first here.
#[derive(Clone, Copy, PartialEq, Eq, Debug, Error)]
pub enum ExpandError {
    /// A name that stands for no phrase.
    #[error("unknown name")]
    UnknownName(Place),
    /// A name that stands for no type.
    #[error("unknown type")]
    UnknownType(Place),
    /// The second use of a name in the definitions of one `let`, or in the declarations of one `letrec`.
    #[error("name defined twice")]
    DoubleName(Place),
    /// The first definition of a `letrec` whose name isn't the declared one of its position, or `in` where definitions are missing.
    #[error("definition without declaration, or declaration without definition")]
    LetrecName(Place),
    /// A right operand of `,` that is no abstraction, field definition or acceptor, at its first token.
    #[error("merge of this operand")]
    MergeRight(Place),
    /// An abstraction with over 16 alternatives, at its backslash.
    #[error("too many alternatives")]
    TooManyAlternatives(Place),
    /// A written type with over 4,096 nodes or a nesting over 256 once its names are replaced, at its first token.
    #[error("type too large")]
    TypeTooLarge(Place),
    /// A core phrase that nests more than 512.
    #[error("phrase too deep")]
    TooDeep,
    /// A core phrase with over 65,536 nodes, those of its types counted.
    #[error("phrase too large")]
    TooLarge,
    /// Over 65,536 visits of a core phrase's nodes, where an abstraction's body is visited once for each alternative.
    #[error("too many visits")]
    TooManyVisits,
    /// Memory was wanting.
    #[error("out of memory")]
    OutOfMemory,
}

impl From<OutOfMemory> for ExpandError {
    ghost from_gives = { λ _ e. e ≡ OutOfMemory };

    fn from(_error: OutOfMemory) -> ExpandError {
        ExpandError::OutOfMemory
    }
}

impl<T: Drop> From<AllocFailed<T>> for ExpandError {
    ghost from_gives = { λ _ e. e ≡ OutOfMemory };

    fn from(_error: AllocFailed<T>) -> ExpandError {
        ExpandError::OutOfMemory
    }
}
