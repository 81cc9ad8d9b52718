//! The parser: the tree that the tokens of a program spell.
#![tactic(auto)]

mod cursor;
mod error;
mod form;
mod level;
mod make;
mod program;
mod signs;
mod stop;
mod terms;
mod types;

pub use error::ParseError;
pub use program::parse;
