//! Straight code as code of the word machine: expressions evaluated on registers, with their faults.
#![tactic(auto)]

mod faults;
mod laws;
mod operators;
mod parts;
mod straight;

pub use faults::{add_fault_block, fault_count};
pub use laws::{straight_code_is_disciplined, straight_code_is_short, straight_code_works};
pub use parts::{add_reach, copy, words_behind};
pub use straight::{add_straight, word_of};
