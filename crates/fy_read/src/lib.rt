//! Derivations read from their texts.
#![tactic(auto)]

mod counts;
mod error;
mod laws;
mod level;
mod levels;
mod nodes;
mod read;
mod stop;
mod words;

pub use error::ReadError;
pub use laws::{printed_is_read, printed_is_text, steps_are_texts, texts_are_unique};
pub use read::read_derivation;
