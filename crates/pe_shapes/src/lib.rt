//! The demand shapes of a derivation: which shapes each node of a phrase is asked for.
#![tactic(auto)]

mod conclusion;
mod context;
mod error;
mod found;
mod laws;
mod node;
mod numbers;
mod order;
mod parts;
mod placing;
mod sets;
mod shaping;
mod sizes;
mod types;
mod walk;

pub use error::ShapeError;
pub use laws::{shape_tables_are_closed, shape_tables_are_one};
pub use shaping::shapes_of;
