//! The tokens of a text.
#![tactic(auto)]

mod error;
mod laws;
mod lexer;
mod literal;
mod reader;
mod token;

pub use error::LexError;
pub use laws::{
    identifiers_are_named, later_names_change_nothing, rests_are_read_again, tokens_are_unique,
};
pub use lexer::lex;
pub use token::{Keyword, Symbol, Token, TokenKind};
