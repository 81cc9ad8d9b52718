//! The word machine: a small language of micro-operations on named registers, over a stack of words and a table that is
//! only read. Blocks of it are what code for push-enter instructions and routines is written in.
#![tactic(auto)]

mod laws;
mod micros;

pub use laws::{disciplined_is_never_wrong, word_output_grows, word_runs_split};
pub use micros::{Micro, Register};
