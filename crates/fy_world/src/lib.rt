//! All that a call touches, and what is done with it: notes, listings, kept images and runs.
#![tactic(auto)]

mod images;
mod note;
mod refusal;
mod runs;
mod shown;
mod steps;
mod telling;
mod trace;
mod unlinked;
mod world;

pub use images::{
    execute, keep_and_run, keep_and_sample, keep_bytes, keep_elf, keep_image, list_image,
};
pub use note::{Note, elf_note, read_note, refusal_note};
pub use runs::run_copied;
pub use steps::run_stepped;
pub use telling::{refuse, tell, write};
pub use unlinked::Unlinked;
pub use world::{Outside, Stop, World};
