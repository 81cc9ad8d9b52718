//! The call behind the program: its words, files, input, output and notes.
#![tactic(auto)]

mod audit;
mod build;
mod check;
mod copy;
mod derive;
mod elf;
mod exec;
mod given;
mod judge;
mod laws;
mod link;
mod list;
mod listed;
mod migrate;
mod objects;
mod run;
mod sample;
mod serve;
mod texts;
mod top;
mod trace;
mod tree;
mod unit;
mod wanted;
mod why;

pub use fy_words::{Command, command_of};
pub use laws::{
    accepted_texts_are_never_refused, images_are_accepted, named_derivations_are_accepted,
    runs_complete, texts_are_refused_one_way, texts_within_limits_are_accepted,
};
pub use top::forsythe;
