//! From a text to a program: its core phrase, a derivation that this is a command, and its demand shapes.
#![tactic(auto)]

mod error;
mod refusal;
mod texts;

pub use error::{FrontError, shapes_refusal};
pub use refusal::Refusal;
pub use texts::{Core, Program, core_of, phrase_of, phrase_of_tokens, program_of};
