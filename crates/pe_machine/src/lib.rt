//! The push-enter machine, run.
#![tactic(auto)]

mod acts;
mod answers;
mod apply;
mod contexts;
mod core_state;
mod demands;
mod ends;
mod events;
mod frames;
mod lookup;
mod machine;
mod plans;
mod run;
mod sequences;
mod straight;
mod turns;

pub use events::PeEvent;
pub use machine::PeState;
pub use run::run_pe;
