//! Why a derivation is refused, and what the rules ask for.
#![tactic(auto)]

mod expected;
mod reasons;

pub use expected::{Asking, advice_is_taken, advised, asked, first_wrong, is_asked, lacking};
pub use reasons::{Stopped, Why, reasons_are_forgotten, refusal_of};
