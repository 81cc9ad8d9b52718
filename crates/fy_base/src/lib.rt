//! What every crate of the project stands on: data and their arithmetic, places, lists, and the
//! outside of a call.
#![tactic(auto)]

mod arithmetic;
mod data;
mod error;
mod list;
mod memory;
mod outside;
mod real;

pub use arithmetic::{Applied, apply_binary, apply_unary, put_text};
pub use data::{BinOp, Datum, Ending, FaultKind, Place, PutKind, TrapKind, UnOp};
pub use error::OutOfMemory;
pub use list::{DoubleList, ListOf, PlaceList, Text, WordList};
pub use memory::{
    MemoryFiles, MemorySink, MemorySource, SteadyFiles, SteadySink, SteadySource, TornSink,
};
pub use outside::{Failed, FetchError, Files, KeepError, Sink, Source, next_byte};
pub use real::{RealFiles, RealSink, RealSource};

#[cfg(test)]
mod tests;
