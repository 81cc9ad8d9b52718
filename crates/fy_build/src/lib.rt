//! From a phrase and a derivation to an image that runs as the copy rule.
#![tactic(auto)]

mod building;
mod data;
mod error;
mod laws;

pub use building::{build, code_of, image_of, straight_code_of};
pub use error::BuildError;
pub use laws::{code_runs_as_copy_rule, images_agree, runs_show_copy_rule};
