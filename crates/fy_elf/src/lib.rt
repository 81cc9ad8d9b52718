//! Images as ELF64 files, both ways.
#![tactic(auto)]

mod counted;
mod error;
mod fields;
mod headers;
mod laws;
mod number;
mod read;
mod write;

pub use error::ElfError;
pub use laws::laws_of_elf;
pub use read::read_elf;
pub use write::write_elf;
