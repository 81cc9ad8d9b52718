//! The machine that runs images: RV64IM with three regions of memory and five services.
#![tactic(auto)]

mod decoded;
mod find;
mod forms;
mod laws;
mod machine;
mod memory;
mod operations;
mod patterns;
mod run;
mod services;
mod step;
mod watch;

pub use laws::{fetch_traps_have_no_word, images_have_one_program, laws_of_runs};
pub use machine::Machine;
pub use run::{MachineRun, run_machine, run_watched};
pub use rv_insn::{Event, Status};
pub use watch::{Fetched, Unwatched, Watch};
