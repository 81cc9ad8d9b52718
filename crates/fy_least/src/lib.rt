//! Least types, and the derivations that are found by them.
#![tactic(auto)]

mod bound;
mod context;
mod error;
mod finder;
mod forms;
mod found;
mod laws;
mod least;
mod many;
mod outer;
mod rules;
mod scope;
mod sequence;
mod written;

pub use error::FindError;
pub use finder::{find, find_as};
pub use laws::{found_derivations_have_the_same_shapes, least_type_is_principal, shapes_are_least};
