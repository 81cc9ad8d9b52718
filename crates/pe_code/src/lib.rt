//! Push-enter code: its instructions, its entries, which code is valid, and the text of an
//! instruction.
#![tactic(auto)]

mod code;
mod lists;
mod print;
mod valid;

pub use code::{
    AddressList, Entry, PeCode, PeInsn, PeItem, PeItemList, Purpose, SequenceShapes, StraightList,
    StraightPart,
};
pub use lists::{EntryList, NodeList};
pub use print::print_pe;
pub use valid::{is_valid, leave_one};
