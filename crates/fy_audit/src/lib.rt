//! Judges an image without its source: whether its code is guarded, so that its machine never traps.
#![tactic(auto)]

mod conditions;
mod cutting;
mod error;
mod find;
mod image;
mod judge;
mod rules;
mod targets;
mod windows;

pub use error::AuditError;
pub use image::audit;
