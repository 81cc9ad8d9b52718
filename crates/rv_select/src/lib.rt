//! Selection: code for the word machine from push-enter code, and that its image does what that code
//! does.
#![tactic(auto)]

mod blocks;
mod emission;
mod entries;
mod fixed;
mod further_blocks;
mod laws;
mod main_blocks;
mod numbers;
mod parts;
mod selection;
mod sites;
mod table;

pub use laws::{
    bindings_are_reached, runs_follow, runs_reach, selection_is_counted, selection_is_disciplined,
    selection_is_short, selections_follow,
};
pub use selection::{Selected, select};
