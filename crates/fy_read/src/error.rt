//! Why a text is no derivation.

use thiserror::Error;

/// Why a text is refused as a derivation's text.
#[derive(Clone, Copy, PartialEq, Eq, Debug, Error)]
pub enum ReadError {
    /// No derivation's text begins with the bytes up to and with the one at that offset, or the text
    /// ends too early, and this is its length.
    #[error("no derivation's text goes on so at offset {0}")]
    BadText(u64),
    /// The derivation has more than 262,144 nodes.
    #[error("the derivation is too large")]
    TooLarge,
    /// The derivation nests more than 2,048, or a type in it nests more than 1,024 or has more than
    /// 1,024 parentheses open at once.
    #[error("the derivation is too deep")]
    TooDeep,
    /// Memory was wanting.
    #[error("out of memory")]
    OutOfMemory,
}
