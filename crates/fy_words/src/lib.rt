//! The words of a call: which command they are, with its operands and options.
#![tactic(auto)]

mod command;
mod words;

pub use command::{Command, command_of};
