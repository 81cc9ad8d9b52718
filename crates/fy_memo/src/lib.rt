//! The path forms of the types that are written in a phrase, each made once, and answers about
//! pairs of path forms that were given before.
#![tactic(auto)]

mod form;
mod known;
mod memo;
mod places;
mod table;
mod types;

pub use form::Form;
pub use memo::Memo;
pub use table::Table;
