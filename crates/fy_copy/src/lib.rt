//! The copy rule, run.
#![tactic(auto)]

mod advance;
mod answer;
mod context;
mod copier;
mod demand;
mod filling;
mod finish;
mod look;
mod progress;
mod run;
mod sizes;
mod state;
mod store;
mod words;

pub use context::{Content, Context, Filling, Frame, Row};
pub use copier::{give, is_over, load_of, start, step};
pub use look::{contexts_of, focus_of, store_of};
pub use progress::Progress;
pub use run::{CopyRun, run_copy};
pub use state::{CopyState, Phase};
