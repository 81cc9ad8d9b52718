//! The places of syntax faults: the first token with which no program begins.
#![tactic(auto)]

mod laws;

pub use laws::{places_are_exact, places_are_unique};
