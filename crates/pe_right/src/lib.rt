//! Which push-enter code is that of a phrase, and that it does what the copy rule does.
#![tactic(auto)]

mod laws;

pub use laws::{direct_code_keeps_ahead, right_code_follows_the_copy_rule};
