//! Expansion of written phrases to core phrases: names, sugar and limits.
#![tactic(auto)]

mod build;
mod check;
mod error;
mod expansion;
mod frame;
mod laws;
mod size;
mod types;
mod visit;

pub use error::ExpandError;
pub use expansion::expand;
pub use laws::{judged_phrases_are_named, phrases_mean_the_same, texts_are_judged_one_way};
pub use types::variable_sequence;
pub use visit::visits;
