//! The order of path forms, and what they have behind a call or a field.
#![tactic(auto)]

mod alike;
mod covered;
mod demands;
mod index;
mod keyed;
mod levels;
mod relation;
mod sign;

pub use demands::{
    are_paths_below, has, is_one_below, one_end, others, rests_of_field, rests_of_takers, takers,
};
pub use keyed::{PathIndex, is_form_below, weight};
