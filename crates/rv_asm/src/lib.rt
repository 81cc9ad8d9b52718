//! An assembler for RV64IM: items whose jumps name labels become words that do what the items say.
#![tactic(auto)]

mod assembler;
mod error;
mod forms;
mod items;
mod marks;
mod planning;

pub use assembler::assemble;
pub use error::AsmError;
pub use items::{Assembled, Item, ItemList, LabelAt, LabelList};
