//! Images as programs for Linux: the executable file, what Linux makes of it, and what its process
//! does.
#![tactic(auto)]

mod laws;
mod layout;
mod symbols;

pub use laws::{files_load, processes_grow, processes_split, processes_stay};
pub use layout::{Layout, Section, Segment};
pub use symbols::{Symbol, SymbolName};
