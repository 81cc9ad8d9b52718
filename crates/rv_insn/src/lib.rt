//! The instructions of RV64IM: their words and their prints. What a step of the machine does with
//! them is defined in `specs/`.
#![tactic(auto)]

mod codes;
mod decoding;
mod encoding;
mod events;
mod instructions;
mod laws;
mod prints;

pub use decoding::decode;
pub use encoding::{encode, is_encodable};
pub use events::{Event, Status};
pub use instructions::{BranchOp, ImmOp, Insn, LoadOp, RegOp, ShiftOp, StoreOp};
pub use laws::{
    encodable_have_one_word, ended_runs_stay, illegal_words_trap, loads_read_doublewords,
    loads_read_the_table, only_encodable_have_words, output_grows, readings_are_unique,
    runs_keep_shape, runs_split, status_follows, steps_execute_words, stores_replace_doublewords,
    words_are_unambiguous,
};
pub use prints::print_insn;
