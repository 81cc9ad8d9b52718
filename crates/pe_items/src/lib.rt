//! The machine of items, in step with the push-enter machine.
#![tactic(auto)]

mod laws;

pub use laws::{items_go_in_step, items_stay_linked, no_run_is_gone};
