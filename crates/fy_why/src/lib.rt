//! Why a program has no type, told with the names of the source.
#![tactic(auto)]

mod carets;
mod declared;
mod mismatch;
mod origins;
mod parts;
mod scopes;
mod sentences;
mod text;
mod types;
mod words;

pub use text::print_why;
